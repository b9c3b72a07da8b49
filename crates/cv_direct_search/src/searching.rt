use crate::certificates::{Certificate, Entry};
use crate::choosing::chosen;
use crate::entries::Choice;
use crate::pairs::{Pairing, certificate_by};
use crate::queries::correspondence_of;
use crate::routes::{Scene, Search};
use crate::secrets::{Game, secret};
use cv_closure::Theory;
use cv_grounds::{Event, Given, Grounds, Survey, open};
use cv_settling_lateness::Lateness;
use cv_syntax::{Head, NodeId, Pool};
use std::alloc::{AllocError, Global};

/// How much effort it takes to begin at a place.
const BEGINNING: u32 = 500;

/// How much effort searches may still take together.
#[derive(Clone, Copy)]
pub struct Effort {
    pub left: u32,
}

impl Effort {
    /// Counts an effort, as far as it is left.
    pub(crate) fn spend(&mut self, effort: usize) {
        let effort = u32::try_from(effort).unwrap_or(u32::MAX);
        self.left = self.left.saturating_sub(effort);
    }

    /// Counts the effort of a beginning at a place.
    pub fn begin(&mut self) {
        self.spend(BEGINNING as usize);
    }
}

/// A search from a place, where so much effort is left, with what is known there.
fn search_at(scene: Scene, effort: &mut Effort) -> Result<Search, AllocError> {
    effort.begin();
    let grounds = Grounds::at(
        scene.alloc,
        scene.pool,
        scene.survey,
        scene.theory,
        scene.last,
        effort.left,
    )?;
    Ok(Search {
        grounds,
        left: Given::new(scene.alloc),
        given: Given::new(scene.alloc),
    })
}

/// The places of the left event, in order.
fn lefts(scene: Scene) -> Result<Vec<Event>, AllocError> {
    let mut lefts = Vec::new(scene.alloc);
    for event in scene.survey.events() {
        if event.event == scene.query.event {
            lefts.push(*event)?;
        }
    }
    Ok(lefts)
}

/// The entries of all places of the left event of a correspondence, in order. There are none where for some place none is found.
fn entries(
    scene: Scene,
    pairing: &mut Pairing,
    effort: &mut Effort,
) -> Result<Option<Vec<Entry>>, AllocError> {
    let mut entries = Vec::new(scene.alloc);
    for event in &lefts(scene)? {
        let here = Scene {
            last: event.last,
            ..scene
        };
        let mut search = search_at(here, effort)?;
        let entry = search.entry(here, pairing, *event)?;
        effort.left = search.grounds.closure.effort();
        let Some(entry) = entry else {
            return Ok(None);
        };
        entries.push(entry)?;
    }
    Ok(Some(entries))
}

/// What may be said of each place of the left event, whatever is said of other ones. There is nothing where nothing may be said of some
/// place.
fn choices(
    scene: Scene,
    distinct: &[u32],
    effort: &mut Effort,
) -> Result<Option<Vec<Vec<Choice>>>, AllocError> {
    let mut places = Vec::new(scene.alloc);
    for event in &lefts(scene)? {
        let here = Scene {
            last: event.last,
            ..scene
        };
        let mut search = search_at(here, effort)?;
        let choices = search.choices(here, distinct, *event)?;
        effort.left = search.grounds.closure.effort();
        if choices.is_empty() {
            return Ok(None);
        }
        places.push(choices)?;
    }
    Ok(Some(places))
}

/// The certificate of an injective correspondence with more than one alternative in which no two places of the left event have a right
/// event marked `inj` in common, where one is found with the effort that is left.
fn apart(
    scene: Scene,
    distinct: &[u32],
    effort: &mut Effort,
) -> Result<Option<Certificate>, AllocError> {
    if !scene.query.is_once || scene.query.alternatives.len() < 2 {
        return Ok(None);
    }
    match choices(scene, distinct, effort)? {
        Some(places) => chosen(scene.alloc, distinct, places),
        None => Ok(None),
    }
}

/// The certificate of a correspondence, where it is found with the effort that is left and the values of these arrays taken to differ.
fn events(
    scene: Scene,
    distinct: &[u32],
    effort: &mut Effort,
) -> Result<Option<Certificate>, AllocError> {
    if let Some(found) = apart(scene, distinct, effort)? {
        return Ok(Some(found));
    }
    let mut pairing = Pairing::new(scene.alloc, Vec::from_slice(scene.alloc, distinct)?);
    let Some(entries) = entries(scene, &mut pairing, effort)? else {
        return Ok(None);
    };
    let pairs = pairing.pairs(scene.alloc)?;
    Ok(Some(certificate_by(scene.alloc, distinct, entries, pairs)?))
}

/// Whether a certificate names so few arrays whose values are taken to differ that none can do with fewer.
fn names_few(certificate: &Certificate) -> bool {
    match certificate {
        Certificate::Events { distinct, .. } => distinct.len() < 2,
        Certificate::Secret { .. } => true,
    }
}

/// The first certificate that is found where the values of one of these arrays alone are taken to differ.
fn by_one_array(
    scene: Scene,
    arrays: &[u32],
    effort: &mut Effort,
) -> Result<Option<Certificate>, AllocError> {
    for array in arrays {
        if let Some(found) = events(scene, &[*array], effort)? {
            return Ok(Some(found));
        }
    }
    Ok(None)
}

/// The certificate of an injective correspondence: the values of no array are taken to differ, else of one, else of more. Whether there is
/// one is looked for with all of them first.
fn injective_events(scene: Scene, effort: &mut Effort) -> Result<Option<Certificate>, AllocError> {
    if let Some(found) = events(scene, &[], effort)? {
        return Ok(Some(found));
    }
    let arrays = scene.survey.random_arrays(&scene.theory.large)?;
    if arrays.is_empty() {
        return Ok(None);
    }
    let Some(most) = events(scene, &arrays, effort)? else {
        return Ok(None);
    };
    if names_few(&most) {
        return Ok(Some(most));
    }
    match by_one_array(scene, &arrays, effort)? {
        Some(found) => Ok(Some(found)),
        None => Ok(Some(most)),
    }
}

/// A query of secrecy: of one session, or of many of a variable.
#[derive(Clone, Copy)]
enum Secrecy {
    Once,
    Many(u32),
}

/// What is asked to be secret, where a query is one of secrecy.
fn secrecy_of(pool: &Pool, query: NodeId) -> Option<Secrecy> {
    match open(pool, query)?.head {
        Head::SecretOnce(_) => Some(Secrecy::Once),
        Head::Secret(variable) => Some(Secrecy::Many(variable)),
        _ => None,
    }
}

/// A proposal of what closes a query in the game of a survey, and of the table of which variables come later: of a correspondence entries and pairs with their derivations, and of secrecy
/// pairs alone, where they are found with the effort that is left, which is another one where pairs are needed. That it closes the
/// query is tested by the kernel. The pool stays as it is, and want of memory alone ends the search otherwise.
pub fn direct(
    alloc: Global,
    pool: &Pool,
    survey: &Survey,
    lateness: &Lateness,
    theory: &Theory,
    query: NodeId,
    effort: &mut Effort,
    by_pairs: &mut Effort,
) -> Result<Option<Certificate>, AllocError> {
    if let Some(asked) = secrecy_of(pool, query) {
        let game = Game {
            alloc,
            pool,
            survey,
            theory,
        };
        return match asked {
            Secrecy::Once => Ok(Some(Certificate::Secret {
                pairs: Vec::new(alloc),
            })),
            Secrecy::Many(variable) => secret(game, variable, by_pairs),
        };
    }
    let Some(wanted) = correspondence_of(alloc, pool, query)? else {
        return Ok(None);
    };
    let scene = Scene {
        alloc,
        pool,
        survey,
        lateness,
        theory,
        query: &wanted,
        last: 0,
        alternative: 0,
        is_plain: false,
    };
    if wanted.is_once {
        return injective_events(scene, by_pairs);
    }
    effort.spend(survey.events().len());
    events(scene, &[], effort)
}
