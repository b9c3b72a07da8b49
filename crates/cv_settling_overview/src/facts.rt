// The facts at a place of a game, taken apart at `&&`, as a walk comes and goes.
ghost use Rattle.std.specs.Prelude.{◌≡◌, ◌≢◌, ◌<◌, ℕ, if◌then◌else◌, List, [], ◌∷◌, ◌++◌, All, length, slice_get, IfNone, IfOk, IfSome, OnOk, Some, None};
ghost use Rattle.cv_pool.specs.KindTree.{KindTree};
ghost use Rattle.cv_pool.specs.Nodes.{ChildBelow};
ghost use Rattle.cv_syntax.specs.PoolTrees.{tree_at};
ghost use Rattle.cv_syntax_trees.specs.declared.head.Head.TheVariants.{Leaf};
ghost use Rattle.cv_syntax_trees.specs.Tree.{Tree, lone, same_tree};
ghost use Rattle.cv_scope_rules.specs.Context.{index_terms};
ghost use Rattle.cv_scene.specs.Sights.{from_one};
ghost use Rattle.cv_scene.specs.lines.Truths.{no};
ghost use Rattle.cv_settling_overview.specs.declared.facts.Fact.TheVariants as fact;
ghost use Rattle.cv_settling_overview.specs.Keys.{IsAt};
ghost use Rattle.cv_settling_overview.specs.Facts.{AreSame, Extends, HasIndices, IsKeyOf, IsOperandOf, Knows, cell_at, condition_of, definition_of, denial_of, front_of, mark_of, number};
ghost use Rattle.cv_settling_overview.specs.Findings.{CitesAt, EquatesAt, EquatesIn, GivesValue, HasNoEquation, HasNone, HasNoneIn, HasNoneOf, IsEquationCited, IsNoConjunct, IsOnlyKey, IsPartAt, IsValueAt, LeadsFrom, LeadsTo, LeadsToKey, LeadsToNode, Takes, TakesSide};

use crate::keys::{Conjunct, Conjuncts, Key, Operand};
use cv_grounds::open;
use cv_syntax::{Head, NodeId, Pool};
use std::alloc::{AllocError, Global};

/// What a fact says.
#[derive(Clone, Copy)]
pub enum Fact {
    /// That a condition holds.
    Condition(NodeId),
    /// That a condition doesn't hold.
    Failure(NodeId),
    /// That a variable, at the outermost so many of the current indices, is equal to a term.
    Value {
        variable: u32,
        indices: usize,
        term: NodeId,
    },
}

/// A side of a conjunction.
#[derive(Clone, Copy)]
pub struct Side {
    pub term: NodeId,
    pub is_right: bool,
}

/// A side of a conjunction in a fact: the number of the fact, counted from 1, and that of the side that is the conjunction, or 0 where
/// it is the fact.
#[derive(Clone, Copy)]
pub struct Part {
    side: Side,
    fact: usize,
    above: usize,
}

/// Where a conjunct stands: the number of the fact, its term, or the term whose negation it is, and the sides that lead to the
/// conjunct, the innermost first.
#[derive(Drop)]
pub struct Citation {
    pub fact: u64,
    pub term: NodeId,
    pub is_denied: bool,
    pub sides: Vec<Side>,
}

/// Where an equation of a term with a name stands as a conjunct, and whether the name is its left side.
#[derive(Drop)]
pub struct Equated {
    pub citation: Citation,
    pub equation: NodeId,
    pub is_turned: bool,
}

/// How much is known at a place, to come back to it.
#[derive(Clone, Copy)]
pub struct Mark {
    facts: usize,
    parts: usize,
    conjuncts: usize,
    indices: usize,
}

/// The facts at a place with their conjuncts, and the current indices.
#[derive(Drop)]
pub struct Facts {
    alloc: Global,
    facts: Vec<Fact>,
    parts: Vec<Part>,
    conjuncts: Conjuncts,
    indices: Vec<u32>,
}

/// The name without indices that a term is.
fn name_of(pool: &Pool, term: Option<NodeId>) -> Option<u32>
    ensures some { IfSome result (λ x. tree_at pool.now.trees term ≡ lone (Leaf x)) }
    ensures none { IfNone result ((x : ℕ) → tree_at pool.now.trees term ≢ lone (Leaf x)) }
{
    let Some(n) = term else {
        return None;
    };
    let node = open(pool, n)?;
    let Head::Leaf(x) = node.head else {
        return None;
    };
    if node.first.is_none() && node.second.is_none() {
        Some(x)
    } else {
        None
    }
}

/// Whether a term is this name without indices.
pub(crate) fn is_name(pool: &Pool, term: Option<NodeId>, name: u32) -> bool
    ensures { result ≡ same_tree (tree_at pool.now.trees term) (lone (Leaf name)) }
{
    match name_of(pool, term) {
        Some(x) => x == name,
        None => false,
    }
}

/// The number of a node.
fn number_of(node: Option<NodeId>) -> Option<u32>
    ensures { result ≡ number node }
{
    match node {
        Some(n) => Some(n.0),
        None => None,
    }
}

/// A side of an equation.
fn operand_of(pool: &Pool, term: Option<NodeId>) -> Operand
    ensures { ChildBelow (length pool.now.trees) term
        → IsOperandOf pool.now.trees (tree_at pool.now.trees term) result }
{
    match name_of(pool, term) {
        Some(x) => Operand::Name(x),
        None => Operand::Other(number_of(term)),
    }
}

/// The key of a tree, where it is no conjunction.
fn key_of(pool: &Pool, n: NodeId) -> Key
    ensures { n.0 < length pool.now.trees
        → IsKeyOf pool.now.trees (tree_at pool.now.trees (Some n)) result }
{
    let Some(node) = open(pool, n) else {
        return Key::Other(Some(n.0));
    };
    match node.head {
        Head::Eq => Key::Equation(operand_of(pool, node.first), operand_of(pool, node.second)),
        Head::Not => {
            if node.second.is_none() {
                Key::Denial(number_of(node.first))
            } else {
                Key::Other(Some(n.0))
            }
        }
        Head::No => {
            if node.first.is_none() && node.second.is_none() {
                Key::Falsity
            } else {
                Key::Other(Some(n.0))
            }
        }
        _ => Key::Other(Some(n.0)),
    }
}

impl Citation {
    /// The term that is cited, where it is no negation that is a fact.
    fn conjunct(&self) -> NodeId
        ensures { IsEquationCited self.now result }
    {
        match self.sides.first() {
            Some(side) => side.term,
            None => self.term,
        }
    }
}

impl Facts {
    /// Nothing is known.
    pub fn new(alloc: Global) -> Facts
        ensures { (trees : List KindTree) → Knows trees [] [] result }
    {
        Facts {
            alloc,
            facts: Vec::new(alloc),
            parts: Vec::new(alloc),
            conjuncts: Conjuncts::new(alloc),
            indices: Vec::new(alloc),
        }
    }

    /// How many facts there are.
    pub fn count(&self) -> u64
        ensures { result ≡ length self.now.facts.items }
    {
        self.facts.len() as u64
    }

    /// The current indices, from the root down.
    pub fn indices(&self) -> &[u32]
        ensures { result.now ≡ self.now.indices.items }
    {
        &self.indices
    }

    /// How much is known.
    pub fn mark(&self) -> Mark
        ensures { result ≡ mark_of self.now }
    {
        Mark {
            facts: self.facts.len(),
            parts: self.parts.len(),
            conjuncts: self.conjuncts.len(),
            indices: self.indices.len(),
        }
    }

    /// Forgets what came since.
    pub fn release(&mut self, mark: Mark)
        ensures { (before : Facts) → mark ≡ mark_of before → Extends before self.old
            → AreSame before self.new }
    {
        self.facts.truncate(mark.facts);
        self.parts.truncate(mark.parts);
        self.conjuncts.keep(mark.conjuncts);
        self.indices.truncate(mark.indices);
    }

    /// Adds an index.
    pub fn add_index(&mut self, index: u32) -> Result<(), AllocError>
        ensures knows { OnOk result ((trees : List KindTree) (facts : List Tree) (rs : List (ℕ × ℕ))
            (n : ℕ) → Knows trees facts rs self.old
            → Knows trees facts (rs ++ (index, n) ∷ []) self.new) }
        ensures facts { OnOk result (self.new.facts.items ≡ self.old.facts.items) }
        ensures extends { OnOk result (Extends self.old self.new) }
    {
        self.indices.push(index)?;
        Ok(())
    }

    /// Adds the conjuncts of a fact, or of a side of it.
    #[cycle(split)]
    fn split(&mut self, pool: &Pool, n: NodeId, fact: usize, above: usize) -> Result<(), AllocError>
        ensures takes { OnOk result (Takes pool.now.trees n fact above self.old self.new) }
        ensures facts { OnOk result (self.new.facts ≡ self.old.facts) }
        ensures extends { OnOk result (Extends self.old self.new) }
    {
        let Some(node) = open(pool, n) else {
            return Ok(());
        };
        let Head::And = node.head else {
            let key = key_of(pool, n);
            self.conjuncts.add(Conjunct {
                key,
                fact,
                side: above,
            })?;
            return Ok(());
        };
        self.split_side(pool, node.first, false, fact, above)?;
        self.split_side(pool, node.second, true, fact, above)?;
        Ok(())
    }

    /// Adds the conjuncts of a side.
    #[cycle(split)]
    fn split_side(
        &mut self,
        pool: &Pool,
        side: Option<NodeId>,
        is_right: bool,
        fact: usize,
        above: usize,
    ) -> Result<(), AllocError>
        ensures takes { OnOk result (TakesSide pool.now.trees side is_right fact above self.old
            self.new) }
        ensures facts { OnOk result (self.new.facts ≡ self.old.facts) }
        ensures extends { OnOk result (Extends self.old self.new) }
    {
        let Some(term) = side else {
            return Ok(());
        };
        self.parts.push(Part {
            side: Side { term, is_right },
            fact,
            above,
        })?;
        let number = self.parts.len();
        self.split(pool, term, fact, number)?;
        Ok(())
    }

    /// Adds the fact that a condition holds.
    pub fn hold(&mut self, pool: &Pool, condition: NodeId) -> Result<(), AllocError>
        ensures knows { OnOk result ((facts : List Tree) (rs : List (ℕ × ℕ))
            → condition.0 < length pool.now.trees → Knows pool.now.trees facts rs self.old
            → Knows pool.now.trees (facts ++ tree_at pool.now.trees (Some condition) ∷ []) rs
            self.new) }
        ensures facts { OnOk result (self.new.facts.items
            ≡ self.old.facts.items ++ fact.Condition condition ∷ []) }
        ensures extends { OnOk result (Extends self.old self.new) }
    {
        self.facts.push(Fact::Condition(condition))?;
        let fact = self.facts.len();
        self.split(pool, condition, fact, 0)?;
        Ok(())
    }

    /// Adds the fact that a condition doesn't hold.
    pub fn deny(&mut self, condition: NodeId) -> Result<(), AllocError>
        ensures knows { OnOk result ((trees : List KindTree) (facts : List Tree) (rs : List (ℕ × ℕ))
            → condition.0 < length trees → Knows trees facts rs self.old
            → Knows trees (facts ++ denial_of (tree_at trees (Some condition)) ∷ []) rs self.new) }
        ensures facts { OnOk result (self.new.facts.items
            ≡ self.old.facts.items ++ fact.Failure condition ∷ []) }
        ensures extends { OnOk result (Extends self.old self.new) }
    {
        self.facts.push(Fact::Failure(condition))?;
        let fact = self.facts.len();
        let key = Key::Denial(Some(condition.0));
        self.conjuncts.add(Conjunct { key, fact, side: 0 })?;
        Ok(())
    }

    /// Adds the fact that a variable, at the current indices, is equal to a term.
    pub fn assign(&mut self, variable: u32, term: NodeId) -> Result<(), AllocError>
        ensures knows { OnOk result ((trees : List KindTree) (facts : List Tree) (rs : List (ℕ × ℕ))
            → term.0 < length trees → Knows trees facts rs self.old
            → Knows trees (facts ++ definition_of rs variable (tree_at trees (Some term)) ∷ []) rs
            self.new) }
        ensures facts { OnOk result (self.new.facts.items ≡ self.old.facts.items
            ++ fact.Value variable (length self.old.indices.items) term ∷ []) }
        ensures extends { OnOk result (Extends self.old self.new) }
    {
        let indices = self.indices.len();
        self.facts.push(Fact::Value {
            variable,
            indices,
            term,
        })?;
        let fact = self.facts.len();
        let key = Key::Value {
            variable,
            indices,
            term: term.0,
        };
        self.conjuncts.add(Conjunct { key, fact, side: 0 })?;
        Ok(())
    }

    /// The fact of a number, counted from 1.
    fn fact(&self, number: usize) -> Option<Fact>
        ensures { result ≡ from_one self.now.facts.items number }
    {
        if number == 0 {
            return None;
        }
        self.facts.get(number - 1).copied()
    }

    /// The condition that the fact of a number says, and whether it doesn't hold.
    fn condition(&self, number: usize) -> Option<(NodeId, bool)>
        ensures { result ≡ condition_of (from_one self.now.facts.items number) }
    {
        match self.fact(number) {
            Some(Fact::Condition(n)) => Some((n, false)),
            Some(Fact::Failure(n)) => Some((n, true)),
            _ => None,
        }
    }

    /// The side of a number, counted from 1. What is above it has a smaller number.
    fn part(&self, number: usize) -> Option<Part>
        ensures some { IfSome result (λ p. IsPartAt self.now.parts.items number p) }
        ensures none { IfNone result ((p : Part) → IsPartAt self.now.parts.items number p → ⊥) }
    {
        if number == 0 {
            return None;
        }
        let part = self.parts.get(number - 1).copied()?;
        if part.above < number {
            Some(part)
        } else {
            None
        }
    }

    /// The sides that lead to the one of a number, the innermost first.
    fn sides_to(&self, number: usize) -> Result<Vec<Side>, AllocError>
        ensures { IfOk result (λ ss. LeadsFrom self.now number ss.items) }
    {
        let mut sides = Vec::new(self.alloc);
        let mut at = number;
        'above: while let Some(part) = self.part(at) {
            sides.push(part.side)?;
            at = part.above;
        }
        Ok(sides)
    }

    /// Where the conjunct at a place stands, but for those that `let`s give.
    fn cited_at(&self, k: usize) -> Result<Option<Citation>, AllocError>
        ensures some { IfOk result (λ o. IfSome o (CitesAt self.now k)) }
        ensures none { IfOk result (λ o. IfNone o (IsValueAt self.now k)) }
    {
        let Some(conjunct) = self.conjuncts.at(k) else {
            return Ok(None);
        };
        let Some((term, is_denied)) = self.condition(conjunct.fact) else {
            return Ok(None);
        };
        let sides = self.sides_to(conjunct.side)?;
        Ok(Some(Citation {
            fact: conjunct.fact as u64,
            term,
            is_denied,
            sides,
        }))
    }

    /// Where the first conjunct with a key stands, but for those that `let`s give.
    fn cited(&self, key: Key) -> Result<Option<Citation>, AllocError>
        ensures some { IfOk result (λ o. IfSome o (LeadsToKey self.now key)) }
        ensures none { IfOk result (λ o. IfNone o (IsNoConjunct self.now key)) }
    {
        match self.conjuncts.place(key) {
            Some(k) => self.cited_at(k),
            None => Ok(None),
        }
    }

    /// Where the negation of a term stands as a conjunct.
    pub fn denying(&self, n: NodeId) -> Result<Option<Citation>, AllocError>
        ensures some { IfOk result (λ o. IfSome o (LeadsTo self.now
            (λ trees. denial_of (tree_at trees (Some n))))) }
        ensures none { IfOk result (λ o. IfNone o (HasNone self.now n
            (λ trees. denial_of (tree_at trees (Some n))))) }
    {
        self.cited(Key::Denial(Some(n.0)))
    }

    /// Where `false` stands as a conjunct.
    pub fn falsity(&self) -> Result<Option<Citation>, AllocError>
        ensures some { IfOk result (λ o. IfSome o (LeadsTo self.now (λ trees. no))) }
        ensures none { IfOk result (λ o. IfNone o (HasNoneOf self.now no)) }
    {
        self.cited(Key::Falsity)
    }

    /// The current index at a place.
    fn index_at(&self, k: usize) -> Option<u32>
        ensures { result ≡ slice_get self.now.indices.items k }
    {
        self.indices.get(k).copied()
    }

    /// How many of the current indices these terms are, from the outermost one on, where they are no others.
    fn front(&self, pool: &Pool, terms: Option<NodeId>) -> Option<usize>
        ensures { result ≡ front_of (tree_at pool.now.trees terms) self.now.indices.items }
    {
        let mut at = terms;
        let mut count = 0;
        'terms: while let Some(n) = at {
            let Some(link) = open(pool, n) else {
                return Some(count);
            };
            let Head::Cons = link.head else {
                return None;
            };
            let Some(index) = self.index_at(count) else {
                return None;
            };
            if is_name(pool, link.first, index) {
                count += 1;
                at = link.second;
            } else {
                return None;
            }
        }
        Some(count)
    }

    /// Whether terms are the current indices.
    pub(crate) fn are_current(&self, pool: &Pool, terms: Option<NodeId>) -> bool
        ensures { (rs : List (ℕ × ℕ)) → HasIndices rs self.now → result
            ≡ same_tree (tree_at pool.now.trees terms) (index_terms rs) }
    {
        match self.front(pool, terms) {
            Some(count) => count == self.indices.len(),
            None => false,
        }
    }

    /// The variable that a term reads at the outermost current indices, and at how many.
    fn cell(&self, pool: &Pool, term: Option<NodeId>) -> Option<(u32, usize)>
        ensures { result ≡ cell_at (tree_at pool.now.trees term) self.now.indices.items }
    {
        let Some(n) = term else {
            return None;
        };
        if let Some(x) = name_of(pool, term) {
            return Some((x, 0));
        }
        let node = open(pool, n)?;
        let Head::Read(x) = node.head else {
            return None;
        };
        if node.second.is_some() {
            return None;
        }
        let count = self.front(pool, node.first)?;
        if count > 0 { Some((x, count)) } else { None }
    }

    /// The key of this equation, where a `let` may give it.
    fn value(&self, pool: &Pool, n: NodeId) -> Option<Key>
        ensures some { IfSome result (GivesValue pool.now.trees self.now
            (tree_at pool.now.trees (Some n))) }
        ensures only { IsOnlyKey pool.now.trees self.now (tree_at pool.now.trees (Some n)) result }
    {
        let node = open(pool, n)?;
        let Head::Eq = node.head else {
            return None;
        };
        let read = self.cell(pool, node.first)?;
        let Some(term) = node.second else {
            return None;
        };
        Some(Key::Value {
            variable: read.0,
            indices: read.1,
            term: term.0,
        })
    }

    /// Where a term stands as a conjunct.
    pub fn holding(&self, pool: &Pool, n: NodeId) -> Result<Option<Citation>, AllocError>
        ensures some { IfOk result (λ o. IfSome o (LeadsToNode pool.now.trees self.now n)) }
        ensures none { IfOk result (λ o. IfNone o (HasNoneIn pool.now.trees self.now n
            (tree_at pool.now.trees (Some n)))) }
    {
        let found = self.cited(key_of(pool, n))?;
        if let Some(citation) = found {
            return Ok(Some(citation));
        }
        let Some(key) = self.value(pool, n) else {
            return Ok(None);
        };
        let Some(k) = self.conjuncts.place(key) else {
            return Ok(None);
        };
        let Some(conjunct) = self.conjuncts.at(k) else {
            return Ok(None);
        };
        Ok(Some(Citation {
            fact: conjunct.fact as u64,
            term: n,
            is_denied: false,
            sides: Vec::new(self.alloc),
        }))
    }

    /// The place of the first conjunct with one of two keys, and whether it is the second of them.
    fn first_of(&self, straight: Key, turned: Key) -> Option<(usize, bool)>
        ensures some { IfSome result (λ p. IsAt self.now.conjuncts p.0
            (if p.1 then turned else straight)) }
        ensures none { IfNone result (All (λ c. c.key ≢ straight) self.now.conjuncts
            × All (λ c. c.key ≢ turned) self.now.conjuncts) }
    {
        let Some(k) = self.conjuncts.place(straight) else {
            let j = self.conjuncts.place(turned)?;
            return Some((j, true));
        };
        match self.conjuncts.place(turned) {
            Some(j) => {
                if j < k {
                    Some((j, true))
                } else {
                    Some((k, false))
                }
            }
            None => Some((k, false)),
        }
    }

    /// Where the equation at a place stands, but for those that `let`s give.
    fn equated_at(&self, k: usize, is_turned: bool) -> Result<Option<Equated>, AllocError>
        ensures some { IfOk result (λ o. IfSome o (EquatesAt self.now k is_turned)) }
        ensures none { IfOk result (λ o. IfNone o (IsValueAt self.now k)) }
    {
        let found = self.cited_at(k)?;
        match found {
            Some(citation) => {
                let equation = citation.conjunct();
                Ok(Some(Equated {
                    citation,
                    equation,
                    is_turned,
                }))
            }
            None => Ok(None),
        }
    }

    /// Where the equation of a term with a name stands as a conjunct, but for those that `let`s give.
    pub fn equating(
        &self,
        pool: &Pool,
        term: NodeId,
        name: u32,
    ) -> Result<Option<Equated>, AllocError>
        ensures some { IfOk result (λ o. IfSome o (EquatesIn pool.now.trees self.now term name)) }
        ensures none { IfOk result (λ o. IfNone o (HasNoEquation pool.now.trees self.now term
            name)) }
    {
        let left = operand_of(pool, Some(term));
        let right = Operand::Name(name);
        let straight = Key::Equation(left, right);
        let turned = Key::Equation(right, left);
        let Some((k, is_turned)) = self.first_of(straight, turned) else {
            return Ok(None);
        };
        self.equated_at(k, is_turned)
    }
}
