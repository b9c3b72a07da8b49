ghost use Rattle.std.specs.Prelude.{◌≡◌, ◌++◌, ◌∷◌, [], OnErr, OnOk, option_map};
ghost use Rattle.cv_bound.specs.closings.Queries.{first_unclosed, is_among, numbers_of, sum_in};

use crate::Sum;
use std::alloc::{AllocError, Global};
use std::marker::Model;

/// A query that is closed, by its number, and the sum of the costs of the steps before.
#[derive(Drop)]
pub struct ClosedQuery {
    query: u64,
    sum: Sum,
}

/// The closed queries of a proof, in the order of the steps that closed them.
#[derive(Drop)]
pub struct ClosedQueries {
    list: Vec<ClosedQuery>,
}

impl Model for ClosedQueries {
    ghost use Rattle.std.specs.Prelude.{List};
    ghost use Rattle.cv_bound.specs.declared.closings.queries.ClosedQuery.{ClosedQuery};

    ghost Value = { List ClosedQuery };

    ghost view = { λ c. c.list.items };
}

impl ClosedQueries {
    /// No query. Takes no memory.
    pub fn new(alloc: Global) -> ClosedQueries
        ensures { result ≡ [] }
    {
        ClosedQueries {
            list: Vec::new(alloc),
        }
    }

    /// Puts a query behind the closed ones, with a sum equal to this one.
    pub fn note(&mut self, query: u64, sum: &Sum) -> Result<(), AllocError>
        ensures put { OnOk result (self.new
            ≡ self.old ++ record { query = query; sum = sum.now } ∷ []) }
        ensures same { OnErr result (self.new ≡ self.old) }
    {
        let sum = sum.copy()?;
        self.list.push(ClosedQuery { query, sum })?;
        Ok(())
    }

    /// The sum of a query of this number, where it is closed. Takes no memory.
    pub fn sum(&self, query: u64) -> Option<&Sum>
        ensures { option_map (λ s. s.now) result ≡ sum_in self.now query }
    {
        'list: for one in &self.list {
            if one.query == query {
                return Some(&one.sum);
            }
        }
        None
    }

    /// Whether a query of this number is closed.
    pub fn is_closed(&self, query: u64) -> bool
        ensures { result ≡ is_among (numbers_of self.now) query }
    {
        self.sum(query).is_some()
    }

    /// The first number of a query that isn't closed, where there are so many queries.
    pub fn first_unclosed(&self, count: u32) -> Option<u32>
        ensures { result ≡ first_unclosed (numbers_of self.now) count }
    {
        'numbers: for before in 0..count {
            let number = before + 1;
            if !self.is_closed(u64::from(number)) {
                return Some(number);
            }
        }
        None
    }
}
