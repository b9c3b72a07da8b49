ghost use Rattle.std.specs.Prelude.{◌≡◌, ◌++◌, OnOk, length};
ghost use Rattle.cv_syntax.specs.Postorder.{postorder};
ghost use Rattle.cv_context.specs.nodes.Calls.{IsLive, terms_of};

use cv_syntax::parts::{push_chain, push_tree};
use cv_syntax::{Head, Make, NodeId, Pool};
use std::alloc::AllocError;

/// The call that a site is: the place of its term in the game, and the nodes of what the call reads, the key and each argument in
/// the order of the function.
#[derive(Drop)]
pub struct Call {
    pub place: u32,
    pub key: Option<NodeId>,
    pub arguments: Vec<Option<NodeId>>,
}

/// Makes what a call reads: the key and the arguments.
#[tactic(auto, unfolding(cv_syntax::specs::Postorder::postorder), using(crate::proofs::nodes::Making::making))]
pub fn push_call(makes: &mut Vec<Make>, pool: &Pool, call: &Call) -> Result<(), AllocError>
    requires { IsLive (length pool.now.trees) call.now }
    ensures { OnOk result (makes.new.items
        ≡ makes.old.items ++ postorder (terms_of pool.now.trees call.now)) }
{
    push_tree(makes, pool, call.key)?;
    push_chain(makes, pool, call.arguments.as_slice())?;
    makes.push(Make::Over(Head::Cons))?;
    Ok(())
}
