// What is known at a place of a game: the facts and the directly defined cells that derivations may cite.
use crate::facts::facts_of;
use cv_derive_facts::Fact;
use cv_explain_games::is_small;
use cv_explain_source::{Page, opened, size_of, variables_of};
use cv_grounds::{Known, Survey, open};
use cv_syntax::{Game, Head, NodeId, Opened, Pool, Work};

/// A variable that is bound above a place, and how many replications stand above what binds it.
#[derive(Clone, Copy)]
pub struct Bound {
    pub variable: u32,
    pub above: usize,
}

/// What stands above a place: the indices of the replications, and what is bound.
#[derive(Drop)]
pub struct Above {
    pub indices: Vec<u32>,
    pub bound: Vec<Bound>,
}

impl Above {
    /// Adds what a node binds.
    fn add(&mut self, page: &mut Page, pool: &Pool, node: Opened) {
        if let Head::Repl(i, _) = node.head {
            return page.push(&mut self.indices, i);
        }
        let above = self.indices.len();
        for variable in &variables_of(page, pool, node) {
            let bound = Bound {
                variable: *variable,
                above,
            };
            page.push(&mut self.bound, bound);
        }
    }
}

/// What stands above a place of a game.
pub fn above_of(page: &mut Page, pool: &Pool, root: NodeId, place: u32) -> Above {
    let mut above = Above {
        indices: Vec::new(page.alloc()),
        bound: Vec::new(page.alloc()),
    };
    let mut at = Some(root);
    let mut left = place;
    for _ in 0..pool.live() {
        let Some(node) = opened(pool, at) else {
            return above;
        };
        let weight = node.head.weight();
        if left < weight {
            return above;
        }
        let within = weight.saturating_add(size_of(pool, node.first));
        if left < within {
            left = left.saturating_sub(weight);
            at = node.first;
        } else {
            left = left.saturating_sub(within);
            above.add(page, pool, node);
            at = node.second;
        }
    }
    above
}

/// Says behind words a variable at the outermost so many of some indices.
fn say_variable(page: &mut Page, words: &str, work: &Work, variable: u32, indices: &[u32]) {
    page.name(words, &work.names, variable);
    let mut mark = "[";
    for index in indices {
        page.name(mark, &work.names, *index);
        mark = ", ";
    }
    if mark == ", " {
        page.say("]");
    }
}

/// Says a definition by a term as an equation.
fn say_definition(page: &mut Page, work: &Work, definition: NodeId, indices: &[u32]) {
    if let Some(node) = open(&work.pool, definition) {
        if let Head::Let(x, _) = node.head {
            say_variable(page, "(", work, x, indices);
            page.say(" = ");
        }
        if let Some(term) = node.first {
            page.term(work, term);
        }
        page.say(")");
    }
}

/// The outermost so many of some indices.
fn outermost(above: &Above, count: usize) -> &[u32] {
    above.indices.get(..count).unwrap_or(&above.indices)
}

/// Says a fact.
fn say_fact(page: &mut Page, work: &Work, above: &Above, known: Fact) {
    match known {
        Fact::Holds(n) => page.term(work, n),
        Fact::Fails(n) => {
            page.say("not(");
            page.term(work, n);
            page.say(")");
        }
        Fact::Defines {
            definition,
            above: count,
        } => say_definition(page, work, definition, outermost(above, count as usize)),
    }
}

/// Says the facts at a place, with the numbers by which a derivation cites them.
pub fn say_facts(page: &mut Page, work: &Work, game: Game, place: u32, above: &Above) {
    if !is_small(&work.pool, game) {
        return;
    }
    let found = facts_of(page.alloc(), work, game, place);
    let mut number = 0_u64;
    for known in &page.took(found) {
        number = number.saturating_add(1);
        page.number("    fact ", number);
        page.say("  ");
        say_fact(page, work, above, *known);
        page.say("\n");
    }
}

/// Says the cells of `defined` lists around a place, behind others or as the first ones; whether a cell was said.
fn say_cells(page: &mut Page, work: &Work, survey: &Survey, last: u32, is_first: bool) -> bool {
    let mut is_first = is_first;
    let known = survey.known(last);
    let mut links = page.took(known);
    links.reverse();
    for link in &links {
        if let Known::Cell(cell) = link.known {
            page.say(if is_first { "    defined " } else { ", " });
            page.term(work, cell);
            is_first = false;
        }
    }
    !is_first
}

/// Says the cells that are directly defined at a place: what is bound above, and the cells of `defined` lists around.
pub fn say_defined(page: &mut Page, work: &Work, survey: &Survey, last: u32, above: &Above) {
    let mut mark = "    defined ";
    for bound in &above.bound {
        let indices = outermost(above, bound.above);
        say_variable(page, mark, work, bound.variable, indices);
        mark = ", ";
    }
    if say_cells(page, work, survey, last, above.bound.is_empty()) {
        page.say("\n");
    }
}
