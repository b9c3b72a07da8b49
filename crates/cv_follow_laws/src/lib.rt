// From a source, the bytes of a file and of its library, and the number of its accepted steps, what a report prints is one.
#![tactic(auto)]

ghost use Rattle.std.specs.Prelude.{◌≡◌, ◌≤◌, ℕ, Bool, List, length, map, take};
ghost use Rattle.cv_pool.specs.names.Texts.{NoRepeat};
ghost use Rattle.cv_syntax.specs.declared.work.File.{File};
ghost use Rattle.cv_syntax_trees.specs.Tree.{Tree};
ghost use Rattle.cv_library.specs.Givens.{Given};
ghost use Rattle.cv_accept.specs.Accepted.{Content, IsFile};
ghost use Rattle.cv_kernel.specs.Drawings.{DrawsAlong, told};
ghost use Rattle.cv_kernel.specs.Proofs.{IsProof, Transition};
ghost use Rattle.cv_report.specs.declared.report.Report.{Report};
ghost use Rattle.cv_follow_laws.specs.GivenBack.{AreGivenBack};
ghost use Rattle.cv_follow_laws.specs.Reports.{AreFront, IsPlain, IsReportOf, IsSettled, block_of, body_text, file_in, query_in, text_of};

/// No text stands twice among the names of a file, those of its proof block included, and a source is one file at most.
pub fn names_of_files_stand_once()
    ensures names { (limit : ℕ) (source : Given) (f : Content) → IsFile limit source f
        → NoRepeat f.names }
    ensures one { (limit : ℕ) (source : Given) (f g : Content) → IsFile limit source f
        → IsFile limit source g → f ≡ g }
{}

/// So a file and steps that are accepted one after another, from its game on, fix the games that these lead to, the
/// costs and the contexts, and the table of names behind them, where the names are drawn behind those of the file.
pub fn a_file_and_its_steps_fix_the_games()
    ensures { (found : Bool) (limit : ℕ) (source : Given) (f : Content) (known : ℕ → Bool)
        (ts us : List Transition) (g h : Tree) (after other : List (List ℕ))
        → IsFile limit source f
        → IsProof f.declarations known f.game ts g → IsProof f.declarations known f.game us h
        → map (λ t. t.step) ts ≡ map (λ t. t.step) us
        → DrawsAlong found f.declarations known f.own f.game (map told ts) f.names after
        → DrawsAlong found f.declarations known f.own f.game (map told us) f.names other
        → (ts ≡ us) × (after ≡ other) }
{}

/// Two reports on the same source with equally many steps have one course, the same names, say the same of the queries, and
/// have one text but for the last line, where both ask for all queries, or for the same one alone. Where one has fewer steps, they are
/// the first of the other's. Without a proof block, or where it has the word `simplify`, it is so of reports that found the same steps.
/// How many of the names are the file's is told by the source.
pub fn reports_of_a_file_say_the_same()
    ensures course { (source : Given) (r q : Report) (f g : File) (w : IsReportOf source r f)
        (v : IsReportOf source q g) → AreFront r w.course v.course
        → length w.course.proof ≡ length v.course.proof → w.course ≡ v.course }
    ensures front { (source : Given) (r q : Report) (f g : File) (w : IsReportOf source r f)
        (v : IsReportOf source q g) → AreFront r w.course v.course
        → length w.course.proof ≤ length v.course.proof
        → w.course.proof ≡ take (length w.course.proof) v.course.proof }
    ensures names { (source : Given) (r q : Report) (f g : File) (w : IsReportOf source r f)
        (v : IsReportOf source q g) → AreFront r w.course v.course
        → length w.course.proof ≡ length v.course.proof → r.work.names ≡ q.work.names }
    ensures verdicts { (source : Given) (r q : Report) (f g : File) (w : IsReportOf source r f)
        (v : IsReportOf source q g) → AreFront r w.course v.course
        → length w.course.proof ≡ length v.course.proof → r.verdicts.items ≡ q.verdicts.items }
    ensures text { (source : Given) (r q : Report) (f g : File) (w : IsReportOf source r f)
        (v : IsReportOf source q g) → AreFront r w.course v.course
        → query_in r.command ≡ query_in q.command
        → length w.course.proof ≡ length v.course.proof
        → body_text r f w.names w.course ≡ body_text q g v.names v.course }
    ensures file { (source : Given) (r q : Report) (f g : File) (w : IsReportOf source r f)
        (v : IsReportOf source q g) → file_in r f w.names ≡ file_in q g v.names }
{}

/// So two runs on the same source with a proof block without the word print one text, where each ends by the verdicts on its queries, by the
/// end of the block, by a limit of a game, or by a condition of a step other than 9.
pub fn settled_reports_are_one()
    ensures { (source : Given) (r q : Report) (f g : File) (w : IsReportOf source r f)
        (v : IsReportOf source q g) → query_in r.command ≡ query_in q.command
        → IsPlain (block_of r) → IsSettled r.status → IsSettled q.status
        → text_of r f w.names w.course ≡ text_of q g v.names v.course }
{}

/// Steps that were found without a proof block, given back as one, are followed in front: the course with the block has the first of them,
/// and with all of them it is the one along which they were found, with one text but for the last line. So it is where they give no names
/// and name none that was drawn: such names stand in the block, and others then have other numbers.
pub fn found_steps_lead_as_a_block()
    ensures front { (source other : Given) (r q : Report) (f g : File)
        (w : IsReportOf source r f) (v : IsReportOf other q g)
        → AreGivenBack source other r q f g w v
        → v.course.proof ≡ take (length v.course.proof) w.course.proof }
    ensures course { (source other : Given) (r q : Report) (f g : File)
        (w : IsReportOf source r f) (v : IsReportOf other q g)
        → AreGivenBack source other r q f g w v
        → length v.course.proof ≡ length w.course.proof → v.course ≡ w.course }
    ensures text { (source other : Given) (r q : Report) (f g : File)
        (w : IsReportOf source r f) (v : IsReportOf other q g)
        → AreGivenBack source other r q f g w v
        → query_in r.command ≡ query_in q.command
        → length v.course.proof ≡ length w.course.proof
        → body_text r f w.names w.course ≡ body_text q g v.names v.course }
{}
