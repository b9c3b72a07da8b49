ghost use Rattle.std.specs.Prelude.{◌≡◌, ◌<◌, ◌==◌, ◌&&◌, ℕ, false, List, None, Some, length, nat_eq, slice_index_or, IfOk, OnOk};
ghost use Rattle.cv_syntax_trees.specs.sites.Pairs.{same_pair};
ghost use Rattle.cv_scope.specs.tables.Places.{is_free as is_free_for, place_of, row_at};

use std::alloc::{AllocError, Global};
use std::collections::HashMap;

/// A place for each variable with a number of indices: in a row by the number of the variable's name, and apart where
/// the variable has one with another number of indices.
#[derive(Drop)]
pub struct Places {
    rows: Vec<Option<(usize, usize)>>,
    others: HashMap<(u32, usize), usize>,
}

/// What the rows have of a variable.
fn row(rows: &[Option<(usize, usize)>], x: u32) -> Option<(usize, usize)>
    ensures { result ≡ row_at rows.now x }
{
    rows.get(x as usize).copied().unwrap_or(None)
}

/// Makes the rows reach a variable.
fn reach(rows: &mut Vec<Option<(usize, usize)>>, x: u32) -> Result<(), AllocError>
    ensures reached { OnOk result (x < length rows.new.items) }
    ensures same { (y : ℕ) → row_at rows.new.items y ≡ row_at rows.old.items y }
{
    'rows: while rows.len() <= x as usize {
        rows.push(None)?;
    }
    Ok(())
}

/// Whether a row may have a place for so many indices.
fn is_free(row: Option<(usize, usize)>, indices: usize) -> bool
    ensures { result ≡ is_free_for row indices }
{
    match row {
        Some((n, _)) => n == indices,
        None => true,
    }
}

impl Places {
    /// No place.
    pub fn new(alloc: Global) -> Places
        ensures { (d : ℕ × ℕ) → place_of result d ≡ None }
    {
        Places {
            rows: Vec::new(alloc),
            others: HashMap::new(alloc),
        }
    }

    /// The place of a variable with so many indices.
    pub fn get(&self, x: u32, indices: usize) -> Option<usize>
        ensures { result ≡ place_of self.now (x, indices) }
    {
        if let Some((n, place)) = row(self.rows.as_slice(), x) {
            if n == indices {
                return Some(place);
            }
        }
        self.others.get(&(x, indices)).copied()
    }

    /// Puts down the place of a variable with so many indices.
    pub fn insert(&mut self, x: u32, indices: usize, place: usize) -> Result<(), AllocError>
        ensures same { (d : ℕ × ℕ) → same_pair (x, indices) d ≡ false
            → place_of self.new d ≡ place_of self.old d }
        ensures there { OnOk result (place_of self.new (x, indices) ≡ Some place) }
    {
        reach(&mut self.rows, x)?;
        if is_free(row(self.rows.as_slice(), x), indices) {
            self.rows[x as usize] = Some((indices, place));
            return Ok(());
        }
        self.others.insert((x, indices), place)?;
        Ok(())
    }
}
