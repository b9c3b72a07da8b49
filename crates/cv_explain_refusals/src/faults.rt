// Faults of types and of array scope.
use cv_explain_source::{
    Kind, Located, Page, Positions, Source, Text, arguments_of, is_term, items_of, kind_of, locate,
    nodes_of, sites_of, trees, variables_of, wanted_kind,
};
use cv_scope_rules::ScopeFault;
use cv_scope_rules::typing::TypeFault;
use cv_syntax::{Class, File, Head, NameId, Opened, Work};

/// A file that was read: its bytes, its tokens, its trees, and the tokens of its nodes.
#[derive(Clone, Copy)]
pub struct Known<'a> {
    pub source: Source<'a>,
    pub text: &'a Text,
    pub work: &'a Work,
    pub file: File,
    pub positions: &'a Positions,
}

/// Says words, and a sort behind them.
fn say_kind(said: &mut Page, words: &str, work: &Work, kind: Kind) {
    said.say(words);
    match kind {
        Kind::Type(ty) => said.quote("", &work.names, ty),
        Kind::Truth => said.say("`bool`"),
        Kind::Index(most) => said.quote("an index below ", &work.names, most),
        Kind::Unknown => said.say("another type"),
    }
}

/// Says words, and behind them the types of the arguments of a function or an event.
fn say_arguments(said: &mut Page, words: &str, work: &Work, f: u32) {
    said.say(words);
    let mut mark = "(";
    for ty in &arguments_of(said, work, f) {
        said.name(mark, &work.names, *ty);
        mark = ", ";
    }
    said.say(if mark == "(" { "()" } else { ")" });
}

/// Says where else a variable of a node is bound, and as what.
fn say_other_sites(said: &mut Page, known: Known, at: Located, x: u32) {
    for (site, kind) in &sites_of(said, &known.work.pool, at.root, x) {
        let there = site.saturating_add(at.before);
        if there != at.number {
            said.quote("; ", &known.work.names, x);
            said.say(" is also bound");
            if let Some(token) = known.positions.token(there) {
                known.source.place(said, " at ", known.text, token);
            }
            say_kind(said, ", with ", known.work, *kind);
        }
    }
}

/// Says where else the variables that a node binds are bound, and as what.
fn say_sites(said: &mut Page, known: Known, at: Located) {
    for x in &variables_of(said, &known.work.pool, at.node) {
        say_other_sites(said, known, at, *x);
    }
}

/// What stands above a node.
fn parent_of(at: Located) -> Option<Head> {
    Some(at.parent?.head)
}

/// Says that a variable is read at an index that isn't one of those under which it is bound.
fn say_wrong_index(said: &mut Page, known: Known, at: Located, x: u32) {
    let work = known.work;
    said.quote("", &work.names, x);
    said.say(" is read at ");
    said.quote_term(work, at.term);
    let kind = kind_of(said, work, at, at.term);
    say_kind(said, ", ", work, kind);
    said.say(
        ", and its definition stands under other replications: a value of another session is read where a `find` has the cell in its `defined` list",
    );
}

/// Says of a term that it isn't of the sort that its place asks for.
fn say_wrong_term(said: &mut Page, known: Known, at: Located) {
    let work = known.work;
    let kind = kind_of(said, work, at, at.term);
    said.quote_term(work, at.term);
    if let Kind::Unknown = kind {
        return said.say(" isn't of the type that its place asks for");
    }
    say_kind(said, " has ", work, kind);
    let wanted = wanted_kind(said, work, at);
    say_kind(said, ", and its place asks for ", work, wanted);
    match parent_of(at) {
        Some(Head::Apply(f) | Head::Event(f) | Head::Occurs(f) | Head::OccursOnce(f)) => {
            said.quote(": ", &work.names, f);
            say_arguments(said, " takes ", work, f);
        }
        Some(Head::Eq) => said.say(": both sides of `=` are of one type"),
        _ => {}
    }
}

/// Says a wrong number of arguments or indices.
fn say_arity(said: &mut Page, work: &Work, node: Opened) {
    let (x, one, more) = match node.head {
        Head::Read(x) => (x, " index here", " indices here"),
        Head::Apply(x) | Head::Event(x) | Head::Leaf(x) | Head::Occurs(x) | Head::OccursOnce(x) => {
            (x, " argument here", " arguments here")
        }
        _ => return said.say("the number of arguments or indices isn't that of the declaration"),
    };
    let count = items_of(said, &work.pool, node.first).len() as u64;
    said.quote("", &work.names, x);
    said.number(" has ", count);
    said.say(if count == 1 { one } else { more });
    match work.decls.class(NameId(x)) {
        Class::Fun { .. } | Class::Event => {
            say_arguments(said, ", and is declared with ", work, x);
        }
        _ => said.say(", and as many as replications stand above its first definition are asked"),
    }
}

/// The first event of the queries whose number of arguments isn't the declared one: its token, how many syntax nodes stand before it, and its
/// node.
fn wrong_event(said: &mut Page, known: Known) -> Option<(u32, u32, Opened)> {
    let mut events = 0_usize;
    let trees = trees(said, known.work);
    for (number, _n, node) in &nodes_of(said, &known.work.pool, &trees) {
        if let Head::Occurs(event) | Head::OccursOnce(event) = node.head {
            let wanted = arguments_of(said, known.work, event).len();
            if items_of(said, &known.work.pool, node.first).len() != wanted {
                return Some((known.positions.event(events)?, *number, *node));
            }
            events = events.saturating_add(1);
        }
    }
    None
}

/// Says of an event of a query that it has the wrong number of arguments, where that is the fault at a node of this number; whether it is.
fn say_event_arity(page: &mut Page, known: Known, wanted: u32) -> bool {
    match wrong_event(page, known) {
        Some((token, number, node)) if number == wanted => {
            let mut said = Page::new(page.alloc());
            said.say("arity: ");
            say_arity(&mut said, known.work, node);
            known.source.point(page, known.text.offset(token), &said);
            true
        }
        _ => false,
    }
}

/// Says something of a node of a file: at its own word, or at that where the text leaves the node out.
fn point_node(page: &mut Page, known: Known, at: Located, said: &Page) {
    let names = &known.work.names;
    let own = known
        .positions
        .own_token(known.text, names, at.node.head, at.number);
    let near = known.positions.token(at.number).unwrap_or(0);
    let mut words = Page::new(page.alloc());
    words.join(said);
    if own.is_none() {
        words.say("; the text leaves ");
        words.quote_term(known.work, at.term);
        words.say(" out here");
    }
    let byte = known.text.offset(own.unwrap_or(near));
    known.source.point(page, byte, &words);
}

/// Says which rule of types a node breaks.
fn say_type_rule(said: &mut Page, known: Known, at: Located, fault: TypeFault) {
    let work = known.work;
    match fault {
        TypeFault::WrongType(_) if is_term(at.node.head) => {
            said.say("type: ");
            match parent_of(at) {
                Some(Head::Read(x)) => say_wrong_index(said, known, at, x),
                _ => say_wrong_term(said, known, at),
            }
        }
        TypeFault::WrongType(_) => {
            said.say("type: a variable has the type of the place that binds it first");
            say_sites(said, known, at);
        }
        TypeFault::Arity(_) => {
            said.say("arity: ");
            say_arity(said, work, at.node);
        }
        TypeFault::IndexAsMessage(_) => {
            said.say("index as message: ");
            said.quote_term(work, at.term);
            said.say(" is an index, and an index isn't sent, received, recorded or assigned");
        }
        TypeFault::NotFixed(_) => {
            if let Head::New(x, ty) = at.node.head {
                said.name("not fixed: `new ", &work.names, x);
                said.quote("` chooses of the type ", &work.names, ty);
                said.say(", which isn't declared `[fixed]`");
            }
        }
        TypeFault::OutOfMemory => {}
    }
}

/// Says what is wrong with the types of a file.
pub fn say_types(page: &mut Page, known: Known, fault: TypeFault) {
    let number = match fault {
        TypeFault::WrongType(number)
        | TypeFault::Arity(number)
        | TypeFault::IndexAsMessage(number)
        | TypeFault::NotFixed(number) => number,
        TypeFault::OutOfMemory => return,
    };
    if let TypeFault::Arity(_) = fault {
        if say_event_arity(page, known, number) {
            return;
        }
    }
    if let Some(at) = locate(page, known.work, known.file, number) {
        let mut said = Page::new(page.alloc());
        say_type_rule(&mut said, known, at, fault);
        point_node(page, known, at, &said);
    }
}

/// Says where the variable of a read is defined.
fn say_definitions(said: &mut Page, known: Known, at: Located) {
    let (Head::Leaf(x) | Head::Read(x)) = at.node.head else {
        return;
    };
    let mut mark = "; it is defined at ";
    for (site, _kind) in &sites_of(said, &known.work.pool, at.root, x) {
        if let Some(token) = known.positions.token(site.saturating_add(at.before)) {
            known.source.place(said, mark, known.text, token);
            mark = ", ";
        }
    }
}

/// Says which rule of array scope a node breaks.
fn say_scope_rule(said: &mut Page, known: Known, at: Located, fault: ScopeFault) {
    match fault {
        ScopeFault::Unscoped(_) => {
            said.say("unscoped: ");
            said.quote_term(known.work, at.term);
            said.say(
                " is read where no definition of it stands above and no `defined` list around has it",
            );
            say_definitions(said, known, at);
        }
        ScopeFault::TwoSites(_) => {
            said.say(
                "two sites: a variable, or the label of a `find`, stands at several places only in different branches of one test, under the same replications",
            );
            say_sites(said, known, at);
        }
        ScopeFault::Channel(_) => {
            said.say("channel: ");
            if let Head::In(c) | Head::Out(c) = at.node.head {
                said.quote("", &known.work.names, c);
            }
            said.say(
                " has other indices than the current ones, or another input that is not in a different branch of one test, under the same replications and with the same types",
            );
        }
        ScopeFault::Replications(_) => said.say(
            "replications: more than eight replications stand above, a branch has more than eight indices, or the index is bound above already or is the name of a variable",
        ),
        ScopeFault::OutOfMemory => {}
    }
}

/// Says what is wrong with the array scope of a file's process.
pub fn say_scope(page: &mut Page, known: Known, fault: ScopeFault) {
    let number = match fault {
        ScopeFault::Unscoped(number)
        | ScopeFault::TwoSites(number)
        | ScopeFault::Channel(number)
        | ScopeFault::Replications(number) => number,
        ScopeFault::OutOfMemory => return,
    };
    if let Some(at) = locate(page, known.work, known.file, number) {
        let mut said = Page::new(page.alloc());
        say_scope_rule(&mut said, known, at, fault);
        point_node(page, known, at, &said);
    }
}
