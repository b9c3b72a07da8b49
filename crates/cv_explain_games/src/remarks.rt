// Remarks that change no verdict.
use crate::keys::{Context, Pair, remark_contexts};
use crate::scenes::Scene;
use crate::sizes::remark_sizes;
use cv_explain_source::{Page, Text, nodes_of};
use cv_grounds::Survey;
use cv_syntax::{Class, Decl, Head, NodeId, Work};

/// What a declared name is, where it is worth a remark that it isn't used.
fn class_words(class: Class) -> &'static str {
    match class {
        Class::Param => "  parameter ",
        Class::TypeName { .. } => "  type ",
        Class::Channel => "  channel ",
        Class::Fun { .. } => "  function ",
        Class::Event => "  event ",
        Class::Proba => "  probability ",
        Class::Equiv => "  equivalence ",
        Class::Free => "  name ",
    }
}

/// Whether a word stands once in a text.
fn stands_once(text: &Text, word: &str) -> bool {
    let first = text.find(0, word).unwrap_or(u32::MAX);
    text.find(first.saturating_add(1), word).is_none()
}

/// Says that a declared name is used nowhere.
fn remark_unused(page: &mut Page, work: &Work, text: &Text, decl: Decl) {
    if let Decl::Name { id, class, .. } = decl {
        let word = work.names.get(id).unwrap_or("bool");
        if word != "bool" && stands_once(text, word) {
            page.say(class_words(class));
            page.say(word);
            page.say(" is used nowhere\n");
        }
    }
}

/// Says that an equivalence has no key: no variable is chosen of the type of its key.
fn remark_keyless(page: &mut Page, work: &Work, pairs: &[Pair], equivalence: u32) {
    for pair in pairs {
        if pair.equivalence == equivalence {
            return;
        }
    }
    page.name("  equivalence ", &work.names, equivalence);
    page.say(": the first game chooses no variable of its key's type\n");
}

/// Whether some place of a game executes an event.
fn is_executed(survey: &Survey, event: u32) -> bool {
    for there in survey.events() {
        if there.event == event {
            return true;
        }
    }
    false
}

/// Says of the events of a query which of them no place executes.
fn remark_query(page: &mut Page, work: &Work, survey: &Survey, query: NodeId, number: u32) {
    for (_number, _n, node) in &nodes_of(page, &work.pool, &[query]) {
        match node.head {
            Head::Occurs(event) | Head::OccursOnce(event) if !is_executed(survey, event) => {
                page.number("  query ", u64::from(number));
                page.name(
                    ": no place of the process executes event ",
                    &work.names,
                    event,
                );
                page.say("\n");
            }
            _ => {}
        }
    }
}

/// Says what there is to say of the declarations of a file.
fn remark_declarations(page: &mut Page, scene: Scene, text: &Text, pairs: &[Pair]) {
    let work = scene.work;
    let mut number = 0_u32;
    for k in 0..work.decls.len() {
        let Some(decl) = work.decls.get(k) else {
            continue;
        };
        match *decl {
            Decl::Equiv { id, .. } => remark_keyless(page, work, pairs, id.0),
            Decl::Query(query) => {
                number = number.saturating_add(1);
                remark_query(page, work, scene.survey, query, number);
            }
            other => remark_unused(page, work, text, other),
        }
    }
}

/// Says all remarks on a file, of whose first game this is the scene and these are the keys, and whose steps have these contexts.
pub fn say_remarks(
    page: &mut Page,
    scene: Scene,
    text: &Text,
    pairs: &[Pair],
    contexts: &[Context],
) {
    let mut said = Page::new(page.alloc());
    remark_declarations(&mut said, scene, text, pairs);
    remark_sizes(&mut said, scene.work);
    remark_contexts(&mut said, scene.work, contexts, scene.game, pairs);
    if !said.bytes().is_empty() {
        page.say("remarks, which change no verdict\n");
        page.join(&said);
    }
}
