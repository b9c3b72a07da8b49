use cv_bound::Sum;
use cv_report::Verdict;
use std::alloc::{AllocError, Global};

/// How heavy the sums of the queries are, in their order; there is no weight of one that isn't closed.
#[derive(Drop)]
pub(crate) struct Score {
    weights: Vec<Option<u64>>,
}

/// How many terms a sum has, a collision as often as its coefficient says.
fn weight_of(sum: &Sum) -> u64 {
    let mut weight: u64 = 0;
    for k in 0..sum.len() {
        let more = match sum.collision(k) {
            Some(collision) => collision.times,
            None => 1,
        };
        weight = weight.saturating_add(more);
    }
    weight
}

impl Score {
    /// The score of no query. Takes no memory.
    pub(crate) fn new(alloc: Global) -> Score {
        Score {
            weights: Vec::new(alloc),
        }
    }

    /// The score of the verdicts on all queries.
    pub(crate) fn of(alloc: Global, verdicts: &[Verdict]) -> Result<Score, AllocError> {
        let mut score = Score::new(alloc);
        for verdict in verdicts {
            let weight = match verdict {
                Verdict::Proved(sum) => Some(weight_of(sum)),
                Verdict::NotProved => None,
            };
            score.weights.push(weight)?;
        }
        Ok(score)
    }

    /// The numbers of the closed queries, from 1.
    pub(crate) fn closed(&self, alloc: Global) -> Result<Vec<u64>, AllocError> {
        let mut numbers = Vec::new(alloc);
        let mut number: u64 = 0;
        for weight in &self.weights {
            number = number.saturating_add(1);
            if weight.is_some() {
                numbers.push(number)?;
            }
        }
        Ok(numbers)
    }

    /// How many queries are closed.
    fn count(&self) -> u64 {
        let mut count: u64 = 0;
        for weight in &self.weights {
            if weight.is_some() {
                count = count.saturating_add(1);
            }
        }
        count
    }

    /// How heavy the sums are together.
    fn total(&self) -> u64 {
        let mut total: u64 = 0;
        for weight in &self.weights {
            total = total.saturating_add(weight.unwrap_or(0));
        }
        total
    }

    /// Whether each query that another score has closed is closed.
    fn covers(&self, other: &Score) -> bool {
        for k in 0..other.weights.len() {
            let here = self.weights.get(k).copied().unwrap_or(None);
            let there = other.weights.get(k).copied().unwrap_or(None);
            if there.is_some() && here.is_none() {
                return false;
            }
        }
        true
    }

    /// Whether the queries of another score are closed, and more of them, or up to smaller sums.
    pub(crate) fn is_better(&self, other: &Score) -> bool {
        if !self.covers(other) {
            return false;
        }
        self.count() > other.count() || self.total() < other.total()
    }
}
