// Faults of equivalences and of queries.
use crate::faults::Known;
use cv_explain_source::{
    Page, first_of, function_name, functions_of, items_of, nodes_of, opened, query_of, second_of,
    sites_of,
};
use cv_grounds::{binders, open};
use cv_group::GroupFault;
use cv_syntax::{Decl, Head, NodeId, Pool, Work};

/// The name and the tree of the equivalence of a number, from 1.
fn equivalence(work: &Work, number: u32) -> Option<(u32, NodeId)> {
    let mut left = number;
    for k in 0..work.decls.len() {
        if let Some(Decl::Equiv { id, tree }) = work.decls.get(k) {
            left = left.saturating_sub(1);
            if left == 0 {
                return Some((id.0, *tree));
            }
        }
    }
    None
}

/// Whether a name is read in a tree.
fn is_read(page: &mut Page, pool: &Pool, tree: Option<NodeId>, x: u32) -> bool {
    let Some(n) = tree else { return false };
    for (_number, _n, node) in &nodes_of(page, pool, &[n]) {
        match node.head {
            Head::Leaf(y) | Head::Read(y) if x == y => return true,
            _ => {}
        }
    }
    false
}

/// The names of a list of binders.
fn names_of(page: &mut Page, pool: &Pool, list: Option<NodeId>) -> Vec<u32> {
    let found = binders(page.alloc(), pool, list);
    page.took(found)
}

/// Says of a function which name of a list its body doesn't read; whether there is one.
fn say_unread_in(said: &mut Page, work: &Work, function: NodeId, list: Option<NodeId>) -> bool {
    let body = second_of(&work.pool, Some(function));
    for x in &names_of(said, &work.pool, list) {
        if !is_read(said, &work.pool, body, *x) {
            said.quote(": ", &work.names, function_name(&work.pool, function));
            said.quote(" doesn't read ", &work.names, *x);
            return true;
        }
    }
    false
}

/// Says which function of the left side doesn't read which of its names: its key, its coins or its arguments.
fn say_unread(said: &mut Page, work: &Work, side: Option<NodeId>) {
    let pool = &work.pool;
    let keys = first_of(pool, side);
    for function in &functions_of(said, pool, side) {
        let bound = first_of(pool, Some(*function));
        if say_unread_in(said, work, *function, keys)
            || say_unread_in(said, work, *function, first_of(pool, bound))
            || say_unread_in(said, work, *function, second_of(pool, bound))
        {
            return;
        }
    }
}

/// Whether a body is no term.
fn is_no_term(pool: &Pool, body: Option<NodeId>) -> bool {
    match opened(pool, body) {
        Some(node) => matches!(
            node.head,
            Head::New(_, _) | Head::Let(_, _) | Head::If | Head::Find(_)
        ),
        None => false,
    }
}

/// Says which function of the left side has a body that is no term.
fn say_left(said: &mut Page, work: &Work, side: Option<NodeId>) {
    for function in &functions_of(said, &work.pool, side) {
        if is_no_term(&work.pool, second_of(&work.pool, Some(*function))) {
            let name = function_name(&work.pool, *function);
            return said.quote(": that of ", &work.names, name);
        }
    }
}

/// Says how many functions the sides of an equivalence have, and which of these differ in name.
fn say_shapes(said: &mut Page, work: &Work, left: Option<NodeId>, right: Option<NodeId>) {
    let lefts = functions_of(said, &work.pool, left);
    let rights = functions_of(said, &work.pool, right);
    if lefts.len() != rights.len() {
        said.number(": there are ", lefts.len() as u64);
        said.number(" functions on the left and ", rights.len() as u64);
        return said.say(" on the right");
    }
    for (f, g) in lefts.iter().zip(&rights) {
        let there = function_name(&work.pool, *f);
        let other = function_name(&work.pool, *g);
        if there != other {
            said.quote(": where the left has ", &work.names, there);
            return said.quote(" the right has ", &work.names, other);
        }
    }
    said.say(
        ": of the keys or of one function a bound, a replication, an argument or its type differs, or two functions have one bound",
    );
}

/// The rule that an equivalence breaks.
fn rule_of(fault: GroupFault) -> &'static str {
    match fault {
        GroupFault::LeftNotTerm => "left not term: each body on the left side is a term",
        GroupFault::TwoIndices => {
            "two indices: each branch of a `find` on the right side has exactly one index"
        }
        GroupFault::ShapeDiffers => "shape differs: both sides have the same functions",
        GroupFault::FreeName => {
            "free name: a body names only constants, functions, its key, its coins, its arguments, what it binds above, and what a `defined` list around it asks for; and each branch has a cell at its own index"
        }
        GroupFault::Unread => {
            "unread name: each body on the left side reads the key, what is chosen for its function, and each argument"
        }
        GroupFault::OutOfMemory => "memory ran out",
    }
}

/// Says which rule an equivalence of a number breaks.
pub fn say_group(page: &mut Page, known: Known, number: u32, fault: GroupFault) {
    let work = known.work;
    let Some((name, tree)) = equivalence(work, number) else {
        return;
    };
    let mut said = Page::new(page.alloc());
    said.quote("equivalence ", &work.names, name);
    said.say(": ");
    said.say(rule_of(fault));
    let left = first_of(&work.pool, Some(tree));
    let right = second_of(&work.pool, Some(tree));
    match fault {
        GroupFault::LeftNotTerm => say_left(&mut said, work, left),
        GroupFault::ShapeDiffers => say_shapes(&mut said, work, left, right),
        GroupFault::Unread => say_unread(&mut said, work, left),
        _ => {}
    }
    let token = known.text.find_nth(("equiv", "collision"), number);
    known
        .source
        .point(page, known.text.offset(token.unwrap_or(0)), &said);
}

/// Whether an event of a tree is marked `inj`.
fn is_marked(page: &mut Page, pool: &Pool, tree: Option<NodeId>) -> bool {
    let Some(n) = tree else { return false };
    for (_number, _n, node) in &nodes_of(page, pool, &[n]) {
        if let Head::OccursOnce(_) = node.head {
            return true;
        }
    }
    false
}

/// The name that a term is, where it is one.
fn name_of(pool: &Pool, term: NodeId) -> Option<u32> {
    match open(pool, term)?.head {
        Head::Leaf(x) => Some(x),
        _ => None,
    }
}

/// Says which argument of the left event of a query isn't a variable of its own, and whether one isn't.
fn say_arguments(
    said: &mut Page,
    work: &Work,
    variables: &[u32],
    arguments: Option<NodeId>,
) -> bool {
    let mut seen = Vec::new(said.alloc());
    for n in &items_of(said, &work.pool, arguments) {
        match name_of(&work.pool, *n) {
            Some(x) if variables.contains(&x) && !seen.contains(&x) => {
                said.push(&mut seen, x);
            }
            _ => {
                said.say(
                    "the arguments of its left event are variables of the query, none twice, and ",
                );
                said.quote_term(work, *n);
                said.say(" is none, or stands twice");
                return true;
            }
        }
    }
    false
}

/// Says what is wrong with a correspondence.
fn say_correspondence(
    said: &mut Page,
    work: &Work,
    variables: Option<NodeId>,
    sides: Option<NodeId>,
) {
    let left = first_of(&work.pool, sides);
    let variables = names_of(said, &work.pool, variables);
    if say_arguments(said, work, &variables, first_of(&work.pool, left)) {
        return;
    }
    let here = is_marked(said, &work.pool, left);
    let there = is_marked(said, &work.pool, second_of(&work.pool, sides));
    said.say(match (here, there) {
        (true, false) => "`inj` stands on the left, and on no event on the right",
        (false, true) => "`inj` stands on an event on the right, and not on the left",
        _ => "a correspondence has at most 64 alternatives",
    });
}

/// Says what is wrong with a query of secrecy.
fn say_secrecy(said: &mut Page, known: Known, x: u32) {
    let sites = sites_of(said, &known.work.pool, known.file.game.root, x);
    said.quote(
        "a query of secrecy names a variable of the process that has values of a type, and ",
        &known.work.names,
        x,
    );
    said.say(if sites.is_empty() {
        " isn't defined in the process"
    } else {
        " is an index there"
    });
}

/// Says which rule a query of a number breaks.
pub fn say_query(page: &mut Page, known: Known, number: u32) {
    let work = known.work;
    let mut said = Page::new(page.alloc());
    said.number("query ", u64::from(number));
    said.say(": ");
    if let Some(node) = opened(&work.pool, query_of(work, number)) {
        match node.head {
            Head::Query => say_correspondence(&mut said, work, node.first, node.second),
            Head::Secret(x) | Head::SecretOnce(x) => say_secrecy(&mut said, known, x),
            _ => {}
        }
    }
    let token = known.text.find_nth(("query", "query"), number);
    known
        .source
        .point(page, known.text.offset(token.unwrap_or(0)), &said);
}
