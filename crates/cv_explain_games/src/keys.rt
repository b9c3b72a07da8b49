// Which variables can be keys of which equivalences: the instances, or why not.
ghost use Rattle.std.specs.Prelude.{◌≡◌, ◌<◌, All, IfSome, IsTrue, Some, length};
ghost use Rattle.cv_pool.specs.Nodes.{ChildBelow};
ghost use Rattle.cv_directory.specs.Live.{IsLive};

use crate::games::Listing;
use crate::scenes::{Scene, is_small};
use crate::steps::say_condition;
use cv_directory::Directory;
use cv_explain_source::{Page, first_of, function_name, functions_of, items_of, opened};
use cv_grounds::open;
use cv_match::{Match, MatchFault, matches};
use cv_match_terms::patterns::Site;
use cv_script::{Step, StepView, view};
use cv_syntax::children::room_left;
use cv_syntax::{Decl, Decls, Game, Head, NameId, NodeId, Pool, Work};
use cv_typing::Arrays;
use std::alloc::{AllocError, Global};

/// More nodes than a tree has.
const MOST_NODES: u32 = 4_000_000;

/// The most pairs of an equivalence and a key that are looked at.
const MOST_PAIRS: usize = 100;

/// An equivalence, by its name and its tree, with a variable that may be its key, and the place of the `new` of this.
#[derive(Clone, Copy)]
pub struct Pair {
    pub equivalence: u32,
    pub tree: NodeId,
    pub key: u32,
    pub place: u32,
}

/// The left side of an equivalence.
fn left_of(pool: &Pool, tree: NodeId) -> Option<NodeId> {
    open(pool, tree)?.first
}

/// The type of an equivalence's key.
fn key_type(pool: &Pool, tree: NodeId) -> Option<u32> {
    let group = open(pool, left_of(pool, tree)?)?;
    match open(pool, group.first?)?.head {
        Head::Binder(_, ty) => Some(ty),
        _ => None,
    }
}

/// Adds the variables that are chosen of the type of an equivalence's key, each once.
fn add_pairs(
    page: &mut Page,
    pairs: &mut Vec<Pair>,
    listing: &Listing,
    equivalence: u32,
    tree: NodeId,
    wanted: u32,
) {
    let mut last = u32::MAX;
    for (place, _n, node) in listing.nodes() {
        match node.head {
            Head::New(key, ty) if ty == wanted && key != last && pairs.len() < MOST_PAIRS => {
                last = key;
                page.push(
                    pairs,
                    Pair {
                        equivalence,
                        tree,
                        key,
                        place: *place,
                    },
                );
            }
            _ => {}
        }
    }
}

/// The equivalences of a file with the variables of a game that may be their keys.
pub fn pairs_of(page: &mut Page, work: &Work, listing: &Listing) -> Vec<Pair> {
    let mut pairs = Vec::new(page.alloc());
    for k in 0..work.decls.len() {
        if let Some(Decl::Equiv { id, tree }) = work.decls.get(k) {
            if let Some(wanted) = key_type(&work.pool, *tree) {
                add_pairs(page, &mut pairs, listing, id.0, *tree, wanted);
            }
        }
    }
    pairs
}

/// Whether a pool has a node, where there is one.
fn has(pool: &Pool, n: Option<NodeId>) -> bool
    ensures { IsTrue result → ChildBelow (length pool.now.trees) n }
{
    match n {
        Some(n) => n.0 < pool.live(),
        None => true,
    }
}

/// Whether a pool has the nodes of a declaration.
fn is_live(pool: &Pool, decl: Decl) -> bool
    ensures { IsTrue result → IsLive (length pool.now.trees) decl }
{
    match decl {
        Decl::Name { args, .. } => has(pool, args),
        Decl::Equation(n) => n.0 < pool.live(),
        Decl::Equiv { tree, .. } => tree.0 < pool.live(),
        Decl::Query(n) => n.0 < pool.live(),
    }
}

/// Whether a pool has the nodes of all declarations.
#[tactic(auto, using(crate::proofs::Listed::listed))]
fn are_live(pool: &Pool, decls: &Decls) -> bool
    ensures { IsTrue result → All (IsLive (length pool.now.trees)) decls.now.list }
{
    'decls: for k in 0..decls.len() {
        let Some(decl) = decls.get(k) else {
            return false;
        };
        if !is_live(pool, *decl) {
            return false;
        }
    }
    true
}

/// The sites of an equivalence in a game for a key, or the first reason why there are none that serve; nothing where the game is too large.
fn match_of(
    alloc: Global,
    work: &Work,
    game: Game,
    pair: Pair,
) -> Result<Option<Result<Match, MatchFault>>, AllocError> {
    if !is_small(&work.pool, game) || !are_live(&work.pool, &work.decls) {
        return Ok(None);
    }
    let equiv = NameId(pair.equivalence);
    let tree = work.decls.equiv(equiv);
    if !has(&work.pool, tree) || room_left(&work.pool, tree, MOST_NODES).is_none() {
        return Ok(None);
    }
    let directory = Directory::of(alloc, &work.pool, &work.decls, game.root)?;
    let arrays = Arrays::OfGame(directory);
    Ok(Some(matches(alloc, work, game, &arrays, equiv, NameId(pair.key))))
}

/// Says an instance of an equivalence: its place, its function, its term, and how often it is made.
fn say_site(page: &mut Page, work: &Work, functions: &[NodeId], site: &Site) {
    page.column(u64::from(site.place));
    if let Some(function) = functions.get(site.function as usize) {
        page.name("  ", &work.names, function_name(&work.pool, *function));
    }
    page.say("  ");
    page.quote_term(work, site.term);
    let mut mark = "  ";
    for (_index, parameter) in &site.replications {
        page.name(mark, &work.names, *parameter);
        mark = "*";
    }
    page.say(if mark == "*" {
        " calls\n"
    } else {
        "  1 call\n"
    });
}

/// Says the instances of an equivalence.
fn say_sites(page: &mut Page, work: &Work, pair: Pair, found: &Match) {
    let count = found.sites.len() as u64;
    page.count(count);
    page.say(if count == 1 {
        " instance\n"
    } else {
        " instances\n"
    });
    let functions = functions_of(page, &work.pool, left_of(&work.pool, pair.tree));
    for site in &found.sites {
        say_site(page, work, &functions, site);
    }
}

/// Says why an equivalence has no instances that serve.
fn say_fault(page: &mut Page, scene: Scene, fault: MatchFault) {
    let (condition, place) = match fault {
        MatchFault::NotOneSite => (1, None),
        MatchFault::Use(place) => (2, Some(place)),
        MatchFault::InCondition(place) => (3, Some(place)),
        MatchFault::CoinUse(place) => (4, Some(place)),
        MatchFault::KeyInArgument(place) => (5, Some(place)),
        MatchFault::OutOfMemory => return page.note(Err(AllocError)),
    };
    let _is_line = say_condition(page, "not applicable, condition ", b"crypto", condition);
    if let Some(place) = place {
        scene.listing.say_place(page, "  ", scene.work, place);
        page.say("\n");
    }
}

/// Says of an equivalence and a key which instances there are in a game, or why none.
pub fn say_pair(page: &mut Page, scene: Scene, pair: Pair) {
    let work = scene.work;
    let found = match_of(page.alloc(), work, scene.game, pair);
    page.name("equivalence ", &work.names, pair.equivalence);
    page.name(", key ", &work.names, pair.key);
    page.number(" (new at ", u64::from(pair.place));
    page.say("): ");
    match found {
        Ok(Some(Ok(found))) => say_sites(page, work, pair, &found),
        Ok(Some(Err(fault))) => say_fault(page, scene, fault),
        Ok(None) => page.say("the game is too large to tell\n"),
        Err(fault) => page.note(Err(fault)),
    }
}

/// Whether an index is a term of its own in what stands for the key.
fn is_fixed(pool: &Pool, terms: &[NodeId], index: u32) -> bool {
    for n in terms {
        if let Some(node) = open(pool, *n) {
            if matches!(node.head, Head::Leaf(x) if x == index) {
                return true;
            }
        }
    }
    false
}

/// Says behind words how often a site calls for one key at most, and whether that is more than once.
fn say_calls_a_key(page: &mut Page, words: &str, work: &Work, site: &Site) -> bool {
    page.say(words);
    let terms = items_of(page, &work.pool, first_of(&work.pool, site.instance.key));
    let mut mark = "";
    for (index, parameter) in &site.replications {
        if !is_fixed(&work.pool, &terms, *index) {
            page.name(mark, &work.names, *parameter);
            mark = "*";
        }
    }
    page.say(if mark == "" { "1" } else { "" });
    mark == "*"
}

/// Whether a function of an equivalence has no replication.
fn is_single(pool: &Pool, function: NodeId) -> bool {
    match opened(pool, first_of(pool, Some(function))) {
        Some(node) => matches!(node.head, Head::Single(_)),
        None => false,
    }
}

/// Says how often the function of a position is called for one key, and whether that may be more than once.
fn say_calls_of(said: &mut Page, work: &Work, position: u32, found: &Match) -> bool {
    let mut mark = "";
    let mut often = false;
    for site in &found.sites {
        if site.function == position {
            let more = say_calls_a_key(said, mark, work, site);
            often = often || more || mark != "";
            mark = " + ";
        }
    }
    often
}

/// An accepted step `crypto`: its number, and the pair of its equivalence and its key in the game before it.
#[derive(Clone, Copy)]
pub struct Context {
    pub number: u32,
    pub game: Game,
    pub pair: Pair,
}

/// The equivalence and the key that a step `crypto` names.
fn names_of(pool: &Pool, step: Step) -> Option<(u32, u32)> {
    if step.0.0 >= pool.live() {
        return None;
    }
    match view(pool, step) {
        Some(StepView::Crypto { equiv, x }) => Some((equiv.0, x.0)),
        _ => None,
    }
}

/// The context of a step of a number in a game, where it is a step `crypto`.
pub fn context_of(work: &Work, number: u32, game: Game, step: Step) -> Option<Context> {
    let (equivalence, key) = names_of(&work.pool, step)?;
    let pair = Pair {
        equivalence,
        tree: work.decls.equiv(NameId(equivalence))?,
        key,
        place: 0,
    };
    Some(Context { number, game, pair })
}

/// Says of functions without replication that they are called more than once a key in a game, behind words.
fn remark_calls(page: &mut Page, words: &Page, work: &Work, game: Game, pair: Pair) {
    let Ok(Some(Ok(found))) = match_of(page.alloc(), work, game, pair) else {
        return;
    };
    let mut position = 0_u32;
    for function in &functions_of(page, &work.pool, left_of(&work.pool, pair.tree)) {
        let mut said = Page::new(page.alloc());
        if is_single(&work.pool, *function) && say_calls_of(&mut said, work, position, &found) {
            page.say("  ");
            page.join(words);
            page.name("equivalence ", &work.names, pair.equivalence);
            page.name(", key ", &work.names, pair.key);
            page.name(": ", &work.names, function_name(&work.pool, *function));
            page.say(" has no replication, and is called ");
            page.join(&said);
            page.say(" times a key: its advantage is that of an adversary with so many calls\n");
        }
        position = position.saturating_add(1);
    }
}

/// Says of the contexts of steps which functions without replication they call more than once a key, and then the same of the pairs of a
/// game that are in none of them.
pub fn remark_contexts(
    page: &mut Page,
    work: &Work,
    contexts: &[Context],
    game: Game,
    pairs: &[Pair],
) {
    for context in contexts {
        let mut words = Page::new(page.alloc());
        words.number("context C", u64::from(context.number));
        words.say(", ");
        remark_calls(page, &words, work, context.game, context.pair);
    }
    for pair in pairs {
        if !is_in(contexts, *pair) {
            let words = Page::new(page.alloc());
            remark_calls(page, &words, work, game, *pair);
        }
    }
}

/// Whether a context is one of a pair.
fn is_in(contexts: &[Context], pair: Pair) -> bool {
    for context in contexts {
        if context.pair.equivalence == pair.equivalence && context.pair.key == pair.key {
            return true;
        }
    }
    false
}
