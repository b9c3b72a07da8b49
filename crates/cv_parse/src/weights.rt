ghost use Rattle.std.specs.Prelude.{◌≡◌, ◌<◌, ◌≤◌, ◌^◌, ◌*◌, length};
ghost use Rattle.cv_parse.specs.Weights.{asked as asked_for, held as held_by, part_weight as weight_of, parts_weight as weight_in};

use cv_syntax::{Head, Make};

/// How many names and numbers a node of a file holds.
fn held(head: Head) -> u32
    ensures held { result ≡ held_by head }
    ensures few { result ≤ 2 }
{
    match head {
        Head::Repl(_, _)
        | Head::New(_, _)
        | Head::Let(_, _)
        | Head::Binder(_, _)
        | Head::Bound(_, _) => 2,
        Head::In(_)
        | Head::Out(_)
        | Head::Event(_)
        | Head::Find(_)
        | Head::Leaf(_)
        | Head::Read(_)
        | Head::Apply(_)
        | Head::Name(_)
        | Head::Number(_)
        | Head::Occurs(_)
        | Head::OccursOnce(_)
        | Head::Secret(_)
        | Head::SecretOnce(_)
        | Head::Equivalence(_)
        | Head::Single(_)
        | Head::Oracle(_) => 1,
        _ => 0,
    }
}

/// The weight of a part of a tree.
fn part_weight(make: Make) -> u32
    ensures weight { result ≡ weight_of make }
    ensures few { result ≤ 3 }
{
    match make {
        Make::Nothing => 0,
        Make::Over(head) => head.weight() + held(head),
    }
}

/// The weight of parts of trees.
#[tactic(auto, using(crate::proofs::Weighing::weighings))]
pub fn parts_weight(makes: &[Make]) -> u64
    requires { length makes.now < 2 ^ 32 }
    ensures weight { result ≡ weight_in makes.now }
    ensures few { result ≤ 3 * length makes.now }
{
    let mut weight = 0;
    'parts: for make in makes {
        weight += part_weight(*make) as u64;
    }
    weight
}

/// How many nodes are asked for, for trees of a weight.
pub fn asked(weight: u64) -> u32
    requires { weight < 2 ^ 34 }
    ensures { result ≡ asked_for weight }
{
    let need = 4 * weight;
    need.min(4_294_967_295) as u32
}
