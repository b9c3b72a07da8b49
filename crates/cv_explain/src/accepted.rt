// Files that are accepted: the games, the queries, the equivalences and remarks.
use crate::following::Followed;
use crate::statuses::say_ending;
use crate::words::Asked;
use cv_explain_games::{
    Context, Listing, Scene, context_of, listing_of, pairs_of, say_pair, say_refused, say_remarks,
};
use cv_explain_queries::say_open;
use cv_explain_source::{Page, Source, Text, query_of};
use cv_grounds::{Survey, theory_of};
use cv_report::{Cause, Status, Verdict};
use cv_syntax::Game;

/// The number of the game that is shown: the one that is asked for, or that of the last one.
fn shown_of(asked: Asked, count: usize) -> usize {
    match asked.game {
        Some(number) => (number as usize).min(count),
        None => count,
    }
}

/// Says a game of a number among so many.
fn say_game(page: &mut Page, number: usize, count: usize, listing: &Listing) {
    page.number("game ", number as u64);
    page.number(" of ", count as u64);
    page.say(", with the places of its constructs\n");
    listing.write(page);
}

/// Says the text of a query, as it stands in the file.
fn say_query_text(page: &mut Page, source: Source, text: &Text, number: u32) {
    let token = text.find_nth(("query", "query"), number).unwrap_or(0);
    let dot = text.find(token, ".").unwrap_or(token);
    page.number(" is open (line ", source.line(text, token));
    page.say("): ");
    let end = text.offset(dot).saturating_add(1);
    if let Some(bytes) = source.bytes.get(text.offset(token)..end) {
        page.show_joined(bytes);
    }
    page.say("\n");
}

/// Says of a query whether it is proved, and else what isn't known.
fn say_verdict(
    page: &mut Page,
    scene: Scene,
    source: Source,
    text: &Text,
    number: u32,
    verdict: &Verdict,
) {
    page.number("query ", u64::from(number));
    match verdict {
        Verdict::Proved(sum) => {
            page.say(": proved up to ");
            let shown = sum.text(&scene.work.names);
            let words = page.took(shown);
            page.add(&words);
            page.say("\n");
        }
        Verdict::NotProved => {
            say_query_text(page, source, text, number);
            if let Some(query) = query_of(scene.work, number) {
                say_open(page, scene, query);
            }
        }
    }
}

/// Says of each query, or of the one that is asked for, whether it is proved, and else what isn't known.
fn say_verdicts(
    page: &mut Page,
    scene: Scene,
    source: Source,
    text: &Text,
    followed: &Followed,
    asked: Asked,
) {
    let mut number = 0_u32;
    for verdict in &followed.walk.verdicts {
        number = number.saturating_add(1);
        if asked.query.is_none() || asked.query == Some(number) {
            say_verdict(page, scene, source, text, number, verdict);
        }
    }
}

/// Says that a step is refused in the last game.
fn say_refusal(page: &mut Page, followed: &Followed, last: Game, refused: (u32, u32, u64)) {
    if let Some(step) = followed.refused_step() {
        let listing = listing_of(page, &followed.work, last);
        say_refused(page, &followed.work, &listing, step, refused);
    }
}

/// Says how the steps ended.
fn say_cause(page: &mut Page, followed: &Followed, last: Game) {
    match followed.walk.status {
        Status::Open(Cause::Stuck) => {
            page.say("the search for steps is stuck: it proposes nothing more\n");
        }
        Status::Open(Cause::Moves) => {
            page.say("the search for steps made all its moves; --moves allows more to prove\n");
        }
        Status::Open(Cause::NoClose(k)) => {
            page.number(
                "each step of the proof block is accepted, and none closes query ",
                u64::from(k),
            );
            page.say("\n");
        }
        Status::Open(
            Cause::StepRefused {
                step,
                condition,
                place,
            },
        ) => say_refusal(page, followed, last, (step, condition, place)),
        other => say_ending(page, other),
    }
}

/// The contexts of the steps `crypto` that were accepted.
fn contexts_of(page: &mut Page, followed: &Followed) -> Vec<Context> {
    let mut contexts = Vec::new(page.alloc());
    let mut game = followed.file.game;
    let mut number = 0_u32;
    for entry in followed.trail() {
        number = number.saturating_add(1);
        if let Some(context) = context_of(&followed.work, number, game, entry.step) {
            page.push(&mut contexts, context);
        }
        game = entry.next.unwrap_or(game);
    }
    contexts
}

/// Says of each equivalence and each key of a game which instances there are, where a query is open, and then the remarks on the first game.
fn say_keys(page: &mut Page, scene: Scene, first: Scene, text: &Text, followed: &Followed) {
    if let Status::Open(_) = followed.walk.status {
        for pair in &pairs_of(page, scene.work, scene.listing) {
            say_pair(page, scene, *pair);
        }
    }
    let pairs = pairs_of(page, first.work, first.listing);
    let contexts = contexts_of(page, followed);
    say_remarks(page, first, text, &pairs, &contexts);
}

/// Says of the keys, and the remarks, behind what is said of the queries.
fn say_rest(page: &mut Page, scene: Scene, text: &Text, followed: &Followed) {
    let game = followed.file.game;
    let listing = listing_of(page, scene.work, game);
    let found = Survey::of(page.alloc(), &scene.work.pool, game);
    if let Some(survey) = page.got(found) {
        let first = Scene {
            game,
            listing: &listing,
            survey: &survey,
            ..scene
        };
        say_keys(page, scene, first, text, followed);
    }
}

/// Says what is known in a scene: of the queries, and of the rest where no query is asked for.
fn say_scene(
    page: &mut Page,
    scene: Scene,
    source: Source,
    text: &Text,
    followed: &Followed,
    asked: Asked,
) {
    say_verdicts(page, scene, source, text, followed, asked);
    if asked.query.is_none() {
        say_rest(page, scene, text, followed);
    }
}

/// Says what is known in a game with these lines.
fn say_known(
    page: &mut Page,
    source: Source,
    text: &Text,
    followed: &Followed,
    asked: Asked,
    game: Game,
    listing: &Listing,
) {
    let work = &followed.work;
    let survey = Survey::of(page.alloc(), &work.pool, game);
    let theory = theory_of(page.alloc(), &work.pool, &work.decls);
    if let (Some(survey), Some(theory)) = (page.got(survey), page.got(theory)) {
        let scene = Scene {
            work,
            game,
            listing,
            survey: &survey,
            theory: &theory,
        };
        say_scene(page, scene, source, text, followed, asked);
    }
}

/// The game of a number, from 1; the file's own where there is none.
fn game_of(games: &[Game], number: usize, start: Game) -> Game {
    let found = games.get(number.saturating_sub(1));
    found.copied().unwrap_or(start)
}

/// Explains a file whose steps were followed.
pub fn say_followed(
    page: &mut Page,
    source: Source,
    text: &Text,
    followed: &Followed,
    asked: Asked,
) {
    let found = followed.games(page.alloc());
    let games = page.took(found);
    let number = shown_of(asked, games.len());
    let game = game_of(&games, number, followed.file.game);
    let listing = listing_of(page, &followed.work, game);
    say_game(page, number, games.len(), &listing);
    say_cause(
        page,
        followed,
        game_of(&games, games.len(), followed.file.game),
    );
    say_known(page, source, text, followed, asked, game, &listing);
}
