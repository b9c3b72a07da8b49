ghost use Rattle.std.specs.Prelude.{◌≡◌, ◌++◌, ◌<◌, [], ◌∷◌, All, OnOk, length};
ghost use Rattle.cv_syntax_trees.specs.declared.head.Head.TheVariants.{ArrayRenameStep, CodefStep, LetStep, NewStep, PickStep, PruneStep, RewriteStep, SplitStep, SuccessStep};
ghost use Rattle.cv_syntax.specs.Postorder.{postorder};
ghost use Rattle.cv_step_writer.specs.Certificates.{IsCertificateBelow, certificate_tree};
ghost use Rattle.cv_step_writer.specs.Derivations.{AreLinesBelow, IsBelow, derivation};
ghost use Rattle.cv_step_writer.specs.Items as items;
ghost use Rattle.cv_step_writer.specs.Items.{over, single};
ghost use Rattle.cv_step_writer.specs.Proposals.{IsProposalBelow, body_tree, change, standing, step_tree};

use crate::certificates::Certificate;
use crate::lines::Line;
use crate::parts::certificates::push_certificate;
use crate::parts::items::{
    push_name, push_names, push_number, push_numbers, push_term, push_terms,
};
use crate::parts::lines::push_lines;
use crate::parts::reasons::push_one;
use crate::proposals::{Body, Proposal};
use cv_syntax::parts::push_leaf;
use cv_syntax::{Head, Make, NameId, NodeId, Pool};
use std::alloc::AllocError;

/// Makes a node over a name.
#[tactic(auto, unfolding(cv_syntax::specs::Postorder::postorder), using(crate::proofs::Making::making))]
fn push_over_name(makes: &mut Vec<Make>, head: Head, x: NameId) -> Result<(), AllocError>
    ensures { OnOk result (makes.new.items
        ≡ makes.old.items ++ postorder (over head (items.name x ∷ []))) }
{
    push_name(makes, x)?;
    makes.push(Make::Nothing)?;
    makes.push(Make::Over(head))?;
    Ok(())
}

/// Makes a node over two names.
#[tactic(auto, unfolding(cv_syntax::specs::Postorder::postorder), using(crate::proofs::Making::making))]
fn push_over_two_names(
    makes: &mut Vec<Make>,
    head: Head,
    x: NameId,
    y: NameId,
) -> Result<(), AllocError>
    ensures { OnOk result (makes.new.items
        ≡ makes.old.items ++ postorder (over head (items.name x ∷ items.name y ∷ []))) }
{
    push_name(makes, x)?;
    push_name(makes, y)?;
    makes.push(Make::Over(head))?;
    Ok(())
}

/// Makes a node over a name and a list of numbers.
#[tactic(auto, unfolding(cv_syntax::specs::Postorder::postorder), using(crate::proofs::Making::making))]
fn push_over_places(
    makes: &mut Vec<Make>,
    head: Head,
    x: NameId,
    at: &[u64],
) -> Result<(), AllocError>
    ensures { OnOk result (makes.new.items ≡ makes.old.items
        ++ postorder (over head (items.name x ∷ items.numbers at.now ∷ []))) }
{
    push_name(makes, x)?;
    push_numbers(makes, at)?;
    makes.push(Make::Over(head))?;
    Ok(())
}

/// Makes a step `SArename`.
#[tactic(auto, unfolding(cv_syntax::specs::Postorder::postorder), using(crate::proofs::Making::making))]
fn push_array_rename(makes: &mut Vec<Make>, x: NameId, to: &[NameId]) -> Result<(), AllocError>
    ensures { OnOk result (makes.new.items ≡ makes.old.items
        ++ postorder (over ArrayRenameStep (items.name x ∷ items.names to.now ∷ []))) }
{
    push_name(makes, x)?;
    push_names(makes, to)?;
    makes.push(Make::Over(Head::ArrayRenameStep))?;
    Ok(())
}

/// Makes a step `rewrite`.
#[tactic(auto, unfolding(cv_syntax::specs::Postorder::postorder), using(crate::proofs::Making::making))]
fn push_rewrite(
    makes: &mut Vec<Make>,
    pool: &Pool,
    place: u64,
    term: NodeId,
    by: &[Line],
) -> Result<(), AllocError>
    requires term { term.0 < length pool.now.trees }
    requires lines { AreLinesBelow (length pool.now.trees) by.now }
    ensures { OnOk result (makes.new.items ≡ makes.old.items
        ++ postorder (over RewriteStep (items.number place ∷ items.term pool.now.trees term
        ∷ derivation pool.now.trees by.now ∷ []))) }
{
    push_number(makes, place)?;
    push_term(makes, pool, term)?;
    push_lines(makes, pool, by)?;
    makes.push(Make::Over(Head::Cons))?;
    makes.push(Make::Over(Head::RewriteStep))?;
    Ok(())
}

/// Makes what a `prune` names of a test or of a `find`.
#[tactic(auto, using(crate::proofs::Making::making))]
fn push_body(makes: &mut Vec<Make>, body: Body) -> Result<(), AllocError>
    ensures { OnOk result (makes.new.items ≡ makes.old.items ++ postorder (body_tree body)) }
{
    match body {
        Body::Then => push_leaf(makes, Head::ThenPart),
        Body::Else => push_leaf(makes, Head::ElsePart),
        Body::Branch(k) => push_number(makes, k),
    }
}

/// Makes a step `prune`.
#[tactic(auto, unfolding(cv_syntax::specs::Postorder::postorder), using(crate::proofs::Making::making))]
fn push_prune(
    makes: &mut Vec<Make>,
    pool: &Pool,
    place: u64,
    body: Body,
    by: &[Line],
) -> Result<(), AllocError>
    requires { AreLinesBelow (length pool.now.trees) by.now }
    ensures { OnOk result (makes.new.items ≡ makes.old.items
        ++ postorder (over PruneStep (items.number place ∷ body_tree body
        ∷ derivation pool.now.trees by.now ∷ []))) }
{
    push_number(makes, place)?;
    push_body(makes, body)?;
    push_lines(makes, pool, by)?;
    makes.push(Make::Over(Head::Cons))?;
    makes.push(Make::Over(Head::PruneStep))?;
    Ok(())
}

/// Makes a step `pick`.
#[tactic(auto, unfolding(cv_syntax::specs::Postorder::postorder), using(crate::proofs::Making::making))]
fn push_pick(
    makes: &mut Vec<Make>,
    pool: &Pool,
    place: u64,
    terms: &[NodeId],
    at_body: &[Line],
    at_find: &[Line],
) -> Result<(), AllocError>
    requires terms { All (IsBelow (length pool.now.trees)) terms.now }
    requires body { AreLinesBelow (length pool.now.trees) at_body.now }
    requires find { AreLinesBelow (length pool.now.trees) at_find.now }
    ensures { OnOk result (makes.new.items ≡ makes.old.items
        ++ postorder (over PickStep (items.number place ∷ items.terms pool.now.trees terms.now
        ∷ derivation pool.now.trees at_body.now ∷ derivation pool.now.trees at_find.now ∷ []))) }
{
    push_number(makes, place)?;
    push_terms(makes, pool, terms)?;
    push_lines(makes, pool, at_body)?;
    push_lines(makes, pool, at_find)?;
    makes.push(Make::Over(Head::Cons))?;
    makes.push(Make::Over(Head::Cons))?;
    makes.push(Make::Over(Head::PickStep))?;
    Ok(())
}

/// Makes a step `split`.
#[tactic(auto, unfolding(cv_syntax::specs::Postorder::postorder), using(crate::proofs::Making::making))]
fn push_split(
    makes: &mut Vec<Make>,
    pool: &Pool,
    place: u64,
    condition: NodeId,
) -> Result<(), AllocError>
    requires { condition.0 < length pool.now.trees }
    ensures { OnOk result (makes.new.items ≡ makes.old.items
        ++ postorder (over SplitStep (items.number place
        ∷ items.term pool.now.trees condition ∷ []))) }
{
    push_number(makes, place)?;
    push_term(makes, pool, condition)?;
    makes.push(Make::Over(Head::SplitStep))?;
    Ok(())
}

/// Makes a step `let`.
#[tactic(auto, unfolding(cv_syntax::specs::Postorder::postorder), using(crate::proofs::Making::making))]
fn push_let(
    makes: &mut Vec<Make>,
    pool: &Pool,
    place: u64,
    x: NameId,
    ty: NameId,
    term: NodeId,
) -> Result<(), AllocError>
    requires { term.0 < length pool.now.trees }
    ensures { OnOk result (makes.new.items ≡ makes.old.items
        ++ postorder (over LetStep (items.number place ∷ items.name x ∷ items.name ty
        ∷ items.term pool.now.trees term ∷ []))) }
{
    push_number(makes, place)?;
    push_name(makes, x)?;
    push_name(makes, ty)?;
    push_term(makes, pool, term)?;
    makes.push(Make::Over(Head::Cons))?;
    makes.push(Make::Over(Head::Cons))?;
    makes.push(Make::Over(Head::LetStep))?;
    Ok(())
}

/// Makes a step `new`.
#[tactic(auto, unfolding(cv_syntax::specs::Postorder::postorder), using(crate::proofs::Making::making))]
fn push_new(makes: &mut Vec<Make>, place: u64, x: NameId, ty: NameId) -> Result<(), AllocError>
    ensures { OnOk result (makes.new.items ≡ makes.old.items
        ++ postorder (over NewStep (items.number place ∷ items.name x ∷ items.name ty ∷ []))) }
{
    push_number(makes, place)?;
    push_name(makes, x)?;
    push_name(makes, ty)?;
    makes.push(Make::Over(Head::Cons))?;
    makes.push(Make::Over(Head::NewStep))?;
    Ok(())
}

/// Makes what a `codef` does.
#[tactic(auto, using(crate::proofs::Making::making))]
fn push_change(makes: &mut Vec<Make>, add: bool) -> Result<(), AllocError>
    ensures { OnOk result (makes.new.items ≡ makes.old.items ++ postorder (change add)) }
{
    if add {
        push_leaf(makes, Head::AddPart)
    } else {
        push_leaf(makes, Head::DropPart)
    }
}

/// Makes the word behind a `codef` whose variable stands above.
#[tactic(auto, unfolding(cv_syntax::specs::Postorder::postorder), using(crate::proofs::Making::making))]
fn push_standing(makes: &mut Vec<Make>, above: bool) -> Result<(), AllocError>
    ensures { OnOk result (makes.new.items ≡ makes.old.items ++ postorder (standing above)) }
{
    if above {
        push_leaf(makes, Head::AboveRoute)?;
        makes.push(Make::Nothing)?;
        makes.push(Make::Over(Head::Cons))?;
        Ok(())
    } else {
        makes.push(Make::Nothing)?;
        Ok(())
    }
}

/// Makes the two cells of a `codef`, and the word behind them.
#[tactic(auto, unfolding(cv_syntax::specs::Postorder::postorder), using(crate::proofs::Making::making))]
fn push_cells(
    makes: &mut Vec<Make>,
    pool: &Pool,
    to: NodeId,
    from: NodeId,
    above: bool,
) -> Result<(), AllocError>
    requires to { to.0 < length pool.now.trees }
    requires from { from.0 < length pool.now.trees }
    ensures { OnOk result (makes.new.items ≡ makes.old.items
        ++ postorder (single (items.term pool.now.trees to ∷ items.term pool.now.trees from
        ∷ standing above ∷ []))) }
{
    push_term(makes, pool, to)?;
    push_term(makes, pool, from)?;
    push_standing(makes, above)?;
    makes.push(Make::Over(Head::Cons))?;
    makes.push(Make::Over(Head::Cons))?;
    Ok(())
}

/// Makes a step `codef`.
#[tactic(auto, unfolding(cv_syntax::specs::Postorder::postorder), using(crate::proofs::Making::making))]
fn push_codef(
    makes: &mut Vec<Make>,
    pool: &Pool,
    place: u64,
    add: bool,
    to: NodeId,
    from: NodeId,
    above: bool,
) -> Result<(), AllocError>
    requires to { to.0 < length pool.now.trees }
    requires from { from.0 < length pool.now.trees }
    ensures { OnOk result (makes.new.items ≡ makes.old.items
        ++ postorder (over CodefStep (items.number place ∷ change add
        ∷ items.term pool.now.trees to ∷ items.term pool.now.trees from
        ∷ standing above ∷ []))) }
{
    push_number(makes, place)?;
    push_change(makes, add)?;
    push_cells(makes, pool, to, from, above)?;
    makes.push(Make::Over(Head::Cons))?;
    makes.push(Make::Over(Head::CodefStep))?;
    Ok(())
}

/// Makes a step `success`.
#[tactic(auto, unfolding(cv_syntax::specs::Postorder::postorder), using(crate::proofs::Making::making))]
fn push_success(
    makes: &mut Vec<Make>,
    pool: &Pool,
    query: u64,
    certificate: &Certificate,
) -> Result<(), AllocError>
    requires { IsCertificateBelow (length pool.now.trees) certificate.now }
    ensures { OnOk result (makes.new.items ≡ makes.old.items
        ++ postorder (over SuccessStep (items.number query
        ∷ certificate_tree pool.now.trees certificate.now ∷ []))) }
{
    push_number(makes, query)?;
    push_certificate(makes, pool, certificate)?;
    makes.push(Make::Over(Head::SuccessStep))?;
    Ok(())
}

/// Makes a step.
#[tactic(auto, using(crate::proofs::Making::making))]
pub(crate) fn push_step(
    makes: &mut Vec<Make>,
    pool: &Pool,
    proposal: &Proposal,
) -> Result<(), AllocError>
    requires { IsProposalBelow (length pool.now.trees) proposal.now }
    ensures { OnOk result (makes.new.items
        ≡ makes.old.items ++ postorder (step_tree pool.now.trees proposal.now)) }
{
    match proposal {
        Proposal::Rename { x, to } => push_over_two_names(makes, Head::RenameStep, *x, *to),
        Proposal::Rewrite { place, term, by } => push_rewrite(makes, pool, *place, *term, by),
        Proposal::Prune { place, body, by } => push_prune(makes, pool, *place, *body, by),
        Proposal::Pick {
            place,
            terms,
            at_body,
            at_find,
        } => push_pick(makes, pool, *place, terms, at_body, at_find),
        Proposal::Merge { place } => push_one(makes, Head::MergeStep, *place),
        Proposal::Split { place, condition } => push_split(makes, pool, *place, *condition),
        Proposal::Let { place, x, ty, term } => push_let(makes, pool, *place, *x, *ty, *term),
        Proposal::Unlet { x } => push_over_name(makes, Head::UnletStep, *x),
        Proposal::New { place, x, ty } => push_new(makes, *place, *x, *ty),
        Proposal::Unnew { x } => push_over_name(makes, Head::UnnewStep, *x),
        Proposal::Move { place } => push_one(makes, Head::MoveStep, *place),
        Proposal::ArrayRename { x, to } => push_array_rename(makes, *x, to),
        Proposal::Codef {
            place,
            add,
            to,
            from,
            above,
        } => push_codef(makes, pool, *place, *add, *to, *from, *above),
        Proposal::Birthday { x, at } => push_over_places(makes, Head::BirthdayStep, *x, at),
        Proposal::Guess { x, at } => push_over_places(makes, Head::GuessStep, *x, at),
        Proposal::Fresh { place } => push_one(makes, Head::FreshStep, *place),
        Proposal::Crypto { equivalence, x } => {
            push_over_two_names(makes, Head::CryptoStep, *equivalence, *x)
        }
        Proposal::Success { query, certificate } => push_success(makes, pool, *query, certificate),
        Proposal::Simplify => push_leaf(makes, Head::SimplifyStep),
    }
}
