// The tokens of syntax nodes. A walk over a tree goes along the tokens of its text: each node has a word of its own there, and an infix operator
// stands behind its left operand.
use crate::locating::{first_of, opened, second_of};
use crate::tokens::Text;
use crate::words::{is_own_word, word_of};
use cv_grounds::{items, nodes_up_to, open};
use cv_syntax::{Decl, Decls, File, Head, NameId, Names, NodeId, Opened, Pool, Work};
use std::alloc::{AllocError, Global};

/// How many parts of trees are looked at, at most.
const MOST_TASKS: u32 = 100_000_000;

/// More nodes than a tree has.
const MOST_NODES: u32 = 4_000_000;

/// A part of a tree or of the text that comes next.
#[derive(Clone, Copy)]
enum Task {
    /// A tree.
    Tree(NodeId),
    /// A tree behind a word that follows the brackets of a token, which the text leaves out without this word.
    Behind(NodeId, &'static str, u32),
    /// A tree that the text leaves out, with the token that stands for it.
    Implied(NodeId, u32),
    /// The operator of the node of this number, behind its left operand.
    Operator(usize, &'static str),
    /// A word of no node.
    Word(&'static str),
}

/// The tokens of the syntax nodes of a file, by the numbers that reports give them.
#[derive(Drop)]
pub struct Positions {
    found: Vec<Option<u32>>,
    events: Vec<u32>,
}

impl Positions {
    ghost use Rattle.std.specs.Prelude.{◌≡◌, ◌↔◌, ℕ, Some, None, slice_get, unwrap_or};
    ghost use Rattle.cv_explain_source.specs.Words.{IsOwnToken};

    /// The token of a node, where it is known: that of the node's own word, or of what stands for a node that the text leaves out.
    pub fn token(&self, node: u32) -> Option<u32>
        ensures { result ≡ unwrap_or (slice_get self.now.found.items node) None }
    {
        self.found.get(node as usize).copied().unwrap_or(None)
    }

    /// The token of a node of this number with this head, where it is the node's own word; none where the text leaves the node out.
    pub fn own_token(&self, text: &Text, names: &Names, head: Head, node: u32) -> Option<u32>
        ensures { (k : ℕ) → result ≡ Some k
            ↔ ((unwrap_or (slice_get self.now.found.items node) None ≡ Some k)
            × IsOwnToken names.now head text.now.tokens k) }
    {
        let token = self.token(node)?;
        if token < text.len().saturating_sub(1) && is_own_word(names, head, text.word(token)) {
            Some(token)
        } else {
            None
        }
    }

    /// The token of an event of a query, by its number among the events of all queries, counted from 0.
    pub fn event(&self, number: usize) -> Option<u32> {
        self.events.get(number).copied()
    }
}

/// A walk: the token that comes next, the tokens found, those of the events of queries, what is still to be looked for, and whether memory ran out.
#[derive(Drop)]
struct Walk<'a> {
    alloc: Global,
    pool: &'a Pool,
    names: &'a Names,
    text: &'a Text,
    at: u32,
    found: Vec<Option<u32>>,
    events: Vec<u32>,
    tasks: Vec<Task>,
    is_cut: bool,
}

/// How many tokens behind the word of a construct name what it binds, where its word begins it.
fn names_behind(head: Head) -> Option<u32> {
    match head {
        Head::Stop | Head::Yield | Head::If | Head::Find(_) | Head::Yes | Head::No => Some(0),
        Head::Event(_) => Some(1),
        Head::In(_) | Head::Out(_) => Some(2),
        Head::Repl(_, _) | Head::New(_, _) => Some(3),
        Head::Let(_, _) => Some(4),
        _ => None,
    }
}

impl<'a> Walk<'a> {
    /// Goes behind the next token of a text, and gives it.
    fn seek(&mut self, word: &str) -> Option<u32> {
        let found = self.text.find(self.at, word);
        if let Some(token) = found {
            self.at = token.saturating_add(1);
        }
        found
    }

    /// Goes past brackets that are open deeper than a token.
    fn leave(&mut self, token: u32) {
        let depth = self.text.depth(token);
        for _ in self.at..self.text.len() {
            if self.text.depth(self.at) <= depth {
                return;
            }
            self.at = self.at.saturating_add(1);
        }
    }

    /// Goes on by so many tokens.
    fn skip(&mut self, count: u32) {
        self.at = self.at.saturating_add(count);
    }

    /// Goes behind a word, where it stands next.
    fn pass(&mut self, word: &str) -> bool {
        let stands = self.text.is(self.at, word);
        if stands {
            self.skip(1);
        }
        stands
    }

    /// Notes the token of the next node.
    fn note(&mut self, token: Option<u32>) {
        if self.found.push(token).is_err() {
            self.is_cut = true;
        }
    }

    /// Puts a task, which comes before those that were put.
    fn put(&mut self, task: Task) {
        if self.tasks.push(task).is_err() {
            self.is_cut = true;
        }
    }

    /// Puts a tree, where there is one.
    fn put_tree(&mut self, tree: Option<NodeId>) {
        if let Some(n) = tree {
            self.put(Task::Tree(n));
        }
    }

    /// Puts a tree that may be left out, where there is one.
    fn put_behind(&mut self, tree: Option<NodeId>, word: &'static str, token: u32) {
        if let Some(n) = tree {
            self.put(Task::Behind(n, word, token));
        }
    }

    /// A read or a call, with its terms; the indices of a read may be left out.
    fn named(&mut self, name: u32, node: Opened) {
        let names = self.names;
        let token = match names.get(NameId(name)) {
            Some(word) => self.seek(word),
            None => None,
        };
        self.note(token);
        match (node.head, node.first) {
            (Head::Read(_), Some(list)) if !self.text.is(self.at, "[") => {
                self.put(Task::Implied(list, token.unwrap_or(0)));
            }
            (_, list) => self.put_tree(list),
        }
    }

    /// An infix operator, which stands behind its left operand.
    fn infix(&mut self, node: Opened, word: &'static str) {
        let number = self.found.len();
        self.note(None);
        self.put_tree(node.second);
        self.put(Task::Operator(number, word));
        self.put_tree(node.first);
    }

    /// The token of a node that was noted before, behind its left operand; `<>` is the word of two nodes.
    fn operator(&mut self, number: usize, word: &str) {
        let token = self.seek(word);
        if let Some(found) = self.found.get_mut(number) {
            *found = token;
        }
        if word == "<>" {
            if let Some(found) = self.found.get_mut(number.saturating_add(1)) {
                *found = token;
            }
        }
    }

    /// A negation: `not` before its operand, or `<>` between two.
    fn negation(&mut self, node: Opened) {
        let mut next = self.at;
        for _ in self.at..self.text.len() {
            if !matches!(
                self.text.word(next),
                "(" | ")" | "[" | "]" | "," | ";" | "&&" | "||"
            ) {
                break;
            }
            next = next.saturating_add(1);
        }
        if self.text.is(next, "not") {
            let token = self.seek("not");
            self.note(token);
            self.put_tree(node.first);
        } else if let Some(both) = opened(self.pool, node.first) {
            self.infix(both, "<>");
            self.note(None);
        }
    }

    /// What follows the word of a token that begins a node.
    fn follow(&mut self, node: Opened, token: u32) {
        match node.head {
            Head::Let(_, _) => {
                self.put_tree(node.second);
                self.put(Task::Word("in"));
            }
            Head::Find(_) => self.put_behind(node.second, "else", token),
            Head::Out(_) => {
                self.put_behind(node.second, ";", token);
                if self.text.is(self.at, "[") {
                    let bracket = self.at;
                    self.skip(1);
                    self.leave(bracket);
                }
            }
            Head::If => {
                let other = second_of(self.pool, node.second);
                self.put_behind(first_of(self.pool, other), "else", token);
                self.put_tree(first_of(self.pool, node.second));
            }
            _ => self.put_tree(node.second),
        }
        match node.head {
            Head::In(_) => {}
            Head::Out(_) => self.put_tree(second_of(self.pool, node.first)),
            _ => self.put_tree(node.first),
        }
    }

    /// A branch of a `find`, whose word is `orfind` but in the first one.
    fn branch(&mut self, node: Opened) {
        let before = self.at.saturating_sub(1);
        let token = if self.text.is(before, "find") {
            Some(before)
        } else {
            self.seek("orfind")
        };
        self.note(token);
        let _word = self.seek("suchthat");
        let Some(last) = opened(self.pool, second_of(self.pool, node.second)) else {
            return;
        };
        let list = self.at;
        self.put_tree(last.second);
        if self.pass("defined") {
            self.put_behind(last.first, "&&", list);
            self.put_tree(first_of(self.pool, node.second));
        } else {
            self.put_tree(last.first);
        }
    }

    /// The event of a query, with its arguments.
    fn occurrence(&mut self, node: Opened) {
        let _token = self.seek("event");
        if self.events.push(self.at).is_err() {
            self.is_cut = true;
        }
        self.skip(1);
        self.put_tree(node.first);
    }

    /// A tree.
    fn tree(&mut self, node: Opened) {
        if let Some(count) = names_behind(node.head) {
            let token = self.seek(word_of(node.head, false));
            self.note(token);
            self.skip(count);
            return self.follow(node, token.unwrap_or(0));
        }
        match node.head {
            Head::Par | Head::Eq | Head::And | Head::Or => {
                self.infix(node, word_of(node.head, false));
            }
            Head::Leaf(x) | Head::Read(x) | Head::Apply(x) => self.named(x, node),
            Head::Not => self.negation(node),
            Head::Branch => self.branch(node),
            Head::Occurs(_) | Head::OccursOnce(_) => self.occurrence(node),
            _ => {
                self.put_tree(node.second);
                self.put_tree(node.first);
            }
        }
    }

    /// A tree that the text leaves out, for which a token stands.
    fn implied(&mut self, n: NodeId, token: u32) {
        for _ in 0..nodes_up_to(self.pool, n, MOST_NODES) {
            self.note(Some(token));
        }
    }

    /// Does one task.
    fn work_off(&mut self, task: Task) {
        match task {
            Task::Tree(n) => {
                if let Some(node) = open(self.pool, n) {
                    self.tree(node);
                }
            }
            Task::Behind(n, word, token) => {
                self.leave(token);
                if self.pass(word) {
                    self.put(Task::Tree(n));
                } else {
                    self.implied(n, token);
                }
            }
            Task::Implied(n, token) => self.implied(n, token),
            Task::Operator(number, word) => self.operator(number, word),
            Task::Word(word) => {
                let _token = self.seek(word);
            }
        }
    }

    /// A tree with all that it puts.
    fn walk(&mut self, tree: Option<NodeId>) {
        self.put_tree(tree);
        for _ in 0..MOST_TASKS {
            let Some(task) = self.tasks.pop() else {
                return;
            };
            self.work_off(task);
        }
    }

    /// Goes behind the `forall` list that stands next, where one does.
    fn pass_variables(&mut self, is_there: bool) {
        if is_there {
            let _token = self.seek(";");
        }
    }

    /// The coins of a function, which are nodes on the right side, and then its body.
    fn function(&mut self, n: NodeId, is_right: bool) {
        let mut body = second_of(self.pool, Some(n));
        let _token = self.seek(":");
        if self.text.is(self.at, "!") {
            self.skip(4);
        }
        for _ in self.at..self.text.len() {
            let token = self.at;
            if !self.pass("new") {
                break;
            }
            self.skip(4);
            if is_right {
                self.note(Some(token));
                body = second_of(self.pool, body);
            }
        }
        let _token = self.seek("->");
        self.walk(body);
    }

    /// A side of an equivalence, with its functions.
    fn side(&mut self, side: Option<NodeId>, is_right: bool) {
        self.skip(9);
        let list = second_of(self.pool, side);
        let Ok(functions) = items(self.alloc, self.pool, list) else {
            self.is_cut = true;
            return;
        };
        for function in &functions {
            self.function(*function, is_right);
        }
    }

    /// The body of a side of a collision.
    fn body(&mut self, side: Option<NodeId>) {
        let function = first_of(self.pool, second_of(self.pool, side));
        self.walk(second_of(self.pool, function));
    }

    /// An equivalence or a collision.
    fn equivalence(&mut self, tree: NodeId) {
        let left = first_of(self.pool, Some(tree));
        let right = second_of(self.pool, Some(tree));
        let equiv = self.text.find(self.at, "equiv").unwrap_or(u32::MAX);
        let collision = self.text.find(self.at, "collision").unwrap_or(u32::MAX);
        if collision < equiv {
            self.at = collision;
            let _word = self.seek("new");
            self.skip(4);
            self.pass_variables(self.text.is(self.at, "forall"));
            self.body(left);
            let _word = self.seek("=>");
            self.body(right);
        } else {
            self.at = equiv.saturating_add(2);
            self.side(left, false);
            let _word = self.seek("=>");
            self.side(right, true);
        }
    }

    /// All declarations, in their order.
    fn declarations(&mut self, decls: &Decls) {
        for k in 0..decls.len() {
            match decls.get(k) {
                Some(Decl::Equation(tree)) => {
                    let _word = self.seek("equation");
                    self.pass_variables(self.text.is(self.at, "forall"));
                    self.walk(second_of(self.pool, Some(*tree)));
                }
                Some(Decl::Equiv { tree, .. }) => self.equivalence(*tree),
                Some(Decl::Query(tree)) => {
                    let _word = self.seek("query");
                    let next = self.at.saturating_add(1);
                    self.pass_variables(self.text.is(next, ":"));
                    self.walk(second_of(self.pool, Some(*tree)));
                }
                _ => {}
            }
        }
    }
}

/// The tokens of the nodes of a file that was read from a text.
pub fn positions_of(
    alloc: Global,
    work: &Work,
    file: File,
    text: &Text,
) -> Result<Positions, AllocError> {
    let mut walk = Walk {
        alloc,
        pool: &work.pool,
        names: &work.names,
        text,
        at: 0,
        found: Vec::new(alloc),
        events: Vec::new(alloc),
        tasks: Vec::new(alloc),
        is_cut: false,
    };
    walk.declarations(&work.decls);
    if let Some((_, last)) = file.script {
        walk.at = last;
    }
    let _word = walk.seek("process");
    walk.walk(Some(file.game.root));
    if walk.is_cut {
        return Err(AllocError);
    }
    Ok(Positions {
        found: walk.found,
        events: walk.events,
    })
}
