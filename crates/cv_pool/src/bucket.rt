ghost use Rattle.std.specs.Prelude.{◌≡◌, ◌<◌, ◌≤◌, ◌^◌};
ghost use Rattle.cv_pool.specs.Bucket.{bucket, past, spread};

use crate::node::{Entry, NodeId};

// What each part of a node weighs in its number. Below 2 to the 29, so that five of them add up.
pub const TAG_WEIGHT: u64 = 0x0B87_3593;

pub const A_WEIGHT: u64 = 0x1A9C_5B2D;

pub const B_WEIGHT: u64 = 0x165D_7A91;

pub const FIRST_WEIGHT: u64 = 0x13C6_EF37;

pub const SECOND_WEIGHT: u64 = 0x1E37_79B1;

/// How many nodes there are up to a child.
fn past_child(child: Option<NodeId>) -> u64
    ensures value { result ≡ past child }
    ensures few { result ≤ 2 ^ 32 }
{
    match child {
        None => 0,
        Some(n) => u64::from(n.0) + 1,
    }
}

/// A number that mostly tells a node from others.
fn spread_of(entry: Entry) -> u64
    ensures { result ≡ spread entry }
{
    let kind = entry.kind;
    u64::from(kind.tag) * TAG_WEIGHT
        + u64::from(kind.a) * A_WEIGHT
        + u64::from(kind.b) * B_WEIGHT
        + past_child(entry.first) * FIRST_WEIGHT
        + past_child(entry.second) * SECOND_WEIGHT
}

/// The bucket of a node, out of so many.
pub fn bucket_of(entry: Entry, buckets: usize) -> usize
    requires { 0 < buckets }
    ensures value { result ≡ bucket buckets entry }
    ensures below { result < buckets }
{
    (spread_of(entry) % 0x1_0000_0000) as usize % buckets
}
