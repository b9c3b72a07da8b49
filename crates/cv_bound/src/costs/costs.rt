ghost use Rattle.std.specs.Prelude.{◌≡◌};
ghost use Rattle.cv_bound.specs.costs.Costs.{advantage_of};

use crate::Cost;
use cv_syntax::NameId;

/// The cost of the cryptographic step of this number in a proof, for the equivalence of this name.
pub fn advantage(step: u32, equivalence: u32) -> Cost
    ensures { result ≡ advantage_of step equivalence }
{
    let equiv = NameId(equivalence);
    Cost::Advantage { step, equiv }
}
