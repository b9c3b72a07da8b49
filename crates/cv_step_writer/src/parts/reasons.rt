ghost use Rattle.std.specs.Prelude.{◌≡◌, ◌++◌, [], ◌∷◌, All, OnOk, length};
ghost use Rattle.cv_syntax_trees.specs.declared.head.Head.TheVariants.{ByCong, ByDistinct, ByEquation, ByLate};
ghost use Rattle.cv_syntax.specs.Postorder.{postorder};
ghost use Rattle.cv_step_writer.specs.Derivations.{IsBelow, IsReasonBelow, reason_tree};
ghost use Rattle.cv_step_writer.specs.Items.{number, numbers, over, terms};

use crate::lines::Reason;
use crate::parts::items::{push_number, push_numbers, push_terms};
use cv_syntax::parts::push_leaf;
use cv_syntax::{Head, Make, NodeId, Pool};
use std::alloc::AllocError;

/// Makes a node over a number.
#[tactic(auto, unfolding(cv_syntax::specs::Postorder::postorder), using(crate::proofs::Making::making))]
pub(crate) fn push_one(makes: &mut Vec<Make>, head: Head, a: u64) -> Result<(), AllocError>
    ensures { OnOk result (makes.new.items
        ≡ makes.old.items ++ postorder (over head (number a ∷ []))) }
{
    push_number(makes, a)?;
    makes.push(Make::Nothing)?;
    makes.push(Make::Over(head))?;
    Ok(())
}

/// Makes a node over two numbers.
#[tactic(auto, unfolding(cv_syntax::specs::Postorder::postorder), using(crate::proofs::Making::making))]
fn push_two(makes: &mut Vec<Make>, head: Head, a: u64, b: u64) -> Result<(), AllocError>
    ensures { OnOk result (makes.new.items
        ≡ makes.old.items ++ postorder (over head (number a ∷ number b ∷ []))) }
{
    push_number(makes, a)?;
    push_number(makes, b)?;
    makes.push(Make::Over(head))?;
    Ok(())
}

/// Makes the reason `distinct`.
#[tactic(auto, unfolding(cv_syntax::specs::Postorder::postorder), using(crate::proofs::Making::making))]
fn push_distinct(makes: &mut Vec<Make>, a: u64, b: u64, c: u64, d: u64) -> Result<(), AllocError>
    ensures { OnOk result (makes.new.items ≡ makes.old.items
        ++ postorder (over ByDistinct (number a ∷ number b ∷ number c ∷ number d ∷ []))) }
{
    push_number(makes, a)?;
    push_number(makes, b)?;
    push_number(makes, c)?;
    push_number(makes, d)?;
    makes.push(Make::Over(Head::Cons))?;
    makes.push(Make::Over(Head::Cons))?;
    makes.push(Make::Over(Head::ByDistinct))?;
    Ok(())
}

/// Makes the reason `cong`.
#[tactic(auto, unfolding(cv_syntax::specs::Postorder::postorder), using(crate::proofs::Making::making))]
fn push_congruence(makes: &mut Vec<Make>, lines: &[u64]) -> Result<(), AllocError>
    ensures { OnOk result (makes.new.items
        ≡ makes.old.items ++ postorder (over ByCong (numbers lines.now ∷ []))) }
{
    push_numbers(makes, lines)?;
    makes.push(Make::Nothing)?;
    makes.push(Make::Over(Head::ByCong))?;
    Ok(())
}

/// Makes the reason `late`.
#[tactic(auto, unfolding(cv_syntax::specs::Postorder::postorder), using(crate::proofs::Making::making))]
fn push_late(makes: &mut Vec<Make>, cell: u64, lines: &[u64]) -> Result<(), AllocError>
    ensures { OnOk result (makes.new.items ≡ makes.old.items
        ++ postorder (over ByLate (number cell ∷ numbers lines.now ∷ []))) }
{
    push_number(makes, cell)?;
    push_numbers(makes, lines)?;
    makes.push(Make::Over(Head::ByLate))?;
    Ok(())
}

/// Makes the reason `equation`.
#[tactic(auto, unfolding(cv_syntax::specs::Postorder::postorder), using(crate::proofs::Making::making))]
fn push_instance(
    makes: &mut Vec<Make>,
    pool: &Pool,
    equation: u64,
    ms: &[NodeId],
) -> Result<(), AllocError>
    requires { All (IsBelow (length pool.now.trees)) ms.now }
    ensures { OnOk result (makes.new.items ≡ makes.old.items
        ++ postorder (over ByEquation
        (number equation ∷ terms pool.now.trees ms.now ∷ []))) }
{
    push_number(makes, equation)?;
    push_terms(makes, pool, ms)?;
    makes.push(Make::Over(Head::ByEquation))?;
    Ok(())
}

/// Makes a reason.
#[tactic(auto, using(crate::proofs::Making::making))]
pub(crate) fn push_reason(
    makes: &mut Vec<Make>,
    pool: &Pool,
    reason: &Reason,
) -> Result<(), AllocError>
    requires { IsReasonBelow (length pool.now.trees) reason.now }
    ensures { OnOk result (makes.new.items
        ≡ makes.old.items ++ postorder (reason_tree pool.now.trees reason.now)) }
{
    match reason {
        Reason::Fact(k) => push_one(makes, Head::ByFact, *k),
        Reason::Here => push_leaf(makes, Head::ByHere),
        Reason::Of(l) => push_one(makes, Head::ByOf, *l),
        Reason::Site(l, k) => push_two(makes, Head::BySite, *l, *k),
        Reason::Equation(k, terms) => push_instance(makes, pool, *k, terms),
        Reason::Refl => push_leaf(makes, Head::ByRefl),
        Reason::Sym(l) => push_one(makes, Head::BySym, *l),
        Reason::Trans(l, m) => push_two(makes, Head::ByTrans, *l, *m),
        Reason::Cong(lines) => push_congruence(makes, lines),
        Reason::Mp(l, m) => push_two(makes, Head::ByMp, *l, *m),
        Reason::And(l, m) => push_two(makes, Head::ByAnd, *l, *m),
        Reason::Left(l) => push_one(makes, Head::ByLeft, *l),
        Reason::Right(l) => push_one(makes, Head::ByRight, *l),
        Reason::Contra(l, m) => push_two(makes, Head::ByContra, *l, *m),
        Reason::Exfalso(l) => push_one(makes, Head::ByExfalso, *l),
        Reason::Data => push_leaf(makes, Head::ByData),
        Reason::Given => push_leaf(makes, Head::ByGiven),
        Reason::Again(l) => push_one(makes, Head::ByAgain, *l),
        Reason::Bool => push_leaf(makes, Head::ByBool),
        Reason::OtherFact(k) => push_one(makes, Head::ByOtherFact, *k),
        Reason::OtherHere => push_leaf(makes, Head::ByOtherHere),
        Reason::Same(k) => push_one(makes, Head::BySame, *k),
        Reason::Distinct(l, d, e, k) => push_distinct(makes, *l, *d, *e, *k),
        Reason::Late(l, lines) => push_late(makes, *l, lines),
    }
}
