// Which queries a game plainly meets, so that they are closed before any move is made.
#![tactic(auto)]

ghost use Rattle.cv_query_certificates.specs.Worked.{begun, begun_once, direct, one_site, same, some_begun};
ghost use Rattle.cv_query_certificates.specs.WorkedSecrets.{chosen, copied, secret, secret_once};
ghost use Rattle.cv_direct_rules.specs.Direct.{IsDirect};
ghost use Rattle.cv_direct_rules.specs.Worked.{compared, never, opposed};

/// Queries that small games plainly meet: the event stands above, with the same arguments or with such that are joined to them, or
/// above the definition of a cell; the term is an equation of a term with itself; nothing happens at the place; a variable has one of
/// the two forms of secrecy. A query with a variable on the right alone is never one.
pub fn worked_queries()
    ensures above { IsDirect direct begun }
    ensures once { IsDirect direct begun_once }
    ensures joined { IsDirect compared begun }
    ensures cell { IsDirect one_site begun }
    ensures term { IsDirect direct same }
    ensures never { IsDirect never begun }
    ensures opposed { IsDirect opposed begun_once }
    ensures chosen { IsDirect chosen (secret 4) }
    ensures copied { IsDirect copied (secret_once 4) }
    ensures alone { IsDirect direct some_begun → ⊥ }
{}
