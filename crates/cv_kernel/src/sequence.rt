ghost use Rattle.std.specs.Prelude.{◌≡◌, ◌+◌, ◌<◌, ◌≤◌, ◌^◌, [], All, None, OnErr, OnOk, Some, length, option_map, take};
ghost use Rattle.cv_pool.specs.PoolView.{Grows};
ghost use Rattle.cv_syntax.specs.PoolTrees.{tree_at};
ghost use Rattle.cv_directory.specs.Live.{IsLive};
ghost use Rattle.cv_pool.specs.Nodes.{ChildBelow};
ghost use Rattle.cv_scene_view.specs.Kept.{scene_of};
ghost use Rattle.cv_script.specs.Views.{AreLive, items_of_step, items_of_view};
ghost use Rattle.cv_bound.specs.costs.Sums.{no_sums};
ghost use Rattle.cv_kernel_crypto.specs.Applied.{DrawsNext, HasEquivalences};
ghost use Rattle.cv_bound.specs.closings.Queries.{numbers_of};
ghost use Rattle.cv_kernel.specs.ClosingTrees.{closing_tree};
ghost use Rattle.cv_kernel.specs.Closings.{closing_failure};
ghost use Rattle.cv_kernel.specs.Keeping.{IsFreed, StaysUpTo};
ghost use Rattle.cv_kernel.specs.Reducings.{reducing_in};
ghost use Rattle.cv_kernel.specs.Rules.{needed_by, rule_of_items};
ghost use Rattle.cv_kernel.specs.Sequences.{IsAdvanced, IsCloseAnswer, IsPushed, IsReady, IsReduceAnswer, Same, SameBehind, Stands, game_in, needed_for};
ghost use Rattle.cv_kernel.specs.Steps.{AreShort};
ghost use Rattle.cv_syntax.specs.limits.Limits.{nodes_of};

use crate::applying::attempt;
use crate::closing::{Closing, closing_by, is_secret};
use crate::error::{PushError, Refusal};
use crate::keeping::keep_game;
use crate::reducing::{Reducing, reducing_by};
use cv_bound::Cost;
use cv_bound::closings::ClosedQueries;
use cv_bound::costs::{Sums, advantage};
use cv_context::products::Shape;
use cv_costs::cost_of_certificate;
use cv_directory::Directory;
use cv_kernel_crypto::games::{Next, settle};
use cv_kernel_crypto::{Basis, apply, plan};
use cv_query::check;
use cv_query::kinds::query_numbered;
use cv_script::{Step, StepView, view};
use cv_syntax::{Game, Mark, Work};
use cv_typing::Arrays;
use std::alloc::{AllocError, Global};

/// The most steps of a proof.
const MOST_STEPS: u32 = 2_000;

/// A step that fails a condition at no place.
fn refused(condition: u32) -> PushError
    ensures { result ≡ PushError.Refused (record { condition = condition; place = 0 }) }
{
    PushError::Refused(Refusal {
        condition,
        place: 0,
    })
}

/// A sequence of games, by its last: each accepted step leads to the next, or closes a query.
#[derive(Drop)]
pub struct Sequence {
    game: Game,
    /// What there is to read in the game, once a step was tried in it.
    arrays: Option<Arrays>,
    steps: u32,
    cost: Option<Cost>,
    /// How often the context of the last step chooses keys and calls functions, where it was a cryptographic one.
    context: Option<Shape>,
    sum: Sums,
    closed: ClosedQueries,
}

impl Sequence {
    /// The sequence of a first game. Takes no memory.
    pub fn start(alloc: Global, game: Game) -> Sequence
        ensures game { result.game ≡ game }
        ensures arrays { result.arrays ≡ None }
        ensures steps { result.steps ≡ 0 }
        ensures cost { result.cost ≡ None }
        ensures context { result.context ≡ None }
        ensures sum { result.sum ≡ no_sums }
        ensures closed { result.closed ≡ [] }
    {
        Sequence {
            game,
            arrays: None,
            steps: 0,
            cost: None,
            context: None,
            sum: Sums::new(alloc),
            closed: ClosedQueries::new(alloc),
        }
    }

    /// The last game.
    pub fn game(&self) -> Game
        ensures { result ≡ self.now.game }
    {
        self.game
    }

    /// How many steps were accepted.
    pub fn steps(&self) -> u32
        ensures { result ≡ self.now.steps }
    {
        self.steps
    }

    /// The cost of the last accepted step, where there is one. Takes no memory.
    pub fn cost(&self) -> Option<&Cost>
        ensures { option_map (λ c. c.now) result ≡ self.now.cost }
    {
        self.cost.as_ref()
    }

    /// The shape of the context of the last accepted step, where this was a cryptographic one. Takes no memory.
    pub fn context(&self) -> Option<&Shape>
        ensures { option_map (λ c. c.now) result ≡ self.now.context }
    {
        self.context.as_ref()
    }

    /// The queries that steps have closed.
    pub fn closed(&self) -> &ClosedQueries
        ensures { result.now ≡ self.now.closed }
    {
        &self.closed
    }

    /// Forgets what was looked up in the game, whose pool may then grow. The next step looks it up again.
    pub fn forget(&mut self)
        ensures arrays { self.new.arrays ≡ None }
        ensures same { Same self.old self.new }
    {
        self.arrays = None;
    }

    /// Gives back the games before the last one, and what else stands in the pool behind a mark, where there is much of it; the last
    /// game has another node then, and what was looked up in it is forgotten. Without memory the game is lost.
    pub fn keep(&mut self, alloc: Global, work: &mut Work, mark: Mark) -> Result<(), AllocError>
        requires stands { Stands work.old.pool.trees work.old.decls self.old }
        requires declared { All (IsLive mark.0) work.old.decls.list }
        requires mark { mark.0 ≤ length work.old.pool.trees }
        requires limit { work.old.pool.limit < 4294967295 }
        ensures stays { StaysUpTo mark.0 work.old.pool work.new.pool }
        ensures game { OnOk result (game_in work.new.pool.trees self.new
            ≡ game_in work.old.pool.trees self.old) }
        ensures stands { OnOk result (Stands work.new.pool.trees work.new.decls self.new) }
        ensures same { OnOk result (SameBehind self.old self.new) }
        ensures empty { self.old.arrays ≡ None → self.new.arrays ≡ None }
        ensures few { length work.new.pool.trees ≤ length work.old.pool.trees }
        ensures freed { OnOk result (IsFreed mark.0 (game_in work.old.pool.trees self.old)
            work.new.pool) }
        ensures names { work.new.names ≡ work.old.names }
        ensures decls { work.new.decls ≡ work.old.decls }
    {
        let game = self.game.root;
        let Some(root) = keep_game(alloc, &mut work.pool, mark, game)? else {
            return Ok(());
        };
        self.game = Game { root };
        self.arrays = None;
        Ok(())
    }

    /// Looks up what there is to read in the game.
    fn prepare(&mut self, alloc: Global, work: &Work) -> Result<(), AllocError>
        requires stands { Stands work.now.pool.trees work.now.decls self.old }
        ensures ready { OnOk result (IsReady work.now.pool.trees self.new) }
        ensures stands { Stands work.now.pool.trees work.now.decls self.new }
        ensures same { Same self.old self.new }
    {
        if self.arrays.is_some() {
            return Ok(());
        }
        let directory = Directory::of(alloc, &work.pool, &work.decls, self.game.root)?;
        self.arrays = Some(Arrays::OfGame(directory));
        Ok(())
    }

    /// Goes to the next game of a step; where there is none, nodes may stay behind.
    fn advance(&mut self, alloc: Global, work: &mut Work, view: StepView) -> Result<(), PushError>
        requires ready { IsReady work.old.pool.trees self.old }
        requires stands { Stands work.old.pool.trees work.old.decls self.old }
        requires declared { All (IsLive (length work.old.pool.trees)) work.old.decls.list }
        requires live { AreLive (length work.old.pool.trees) view }
        requires short { AreShort (items_of_view work.old.pool.trees view) }
        requires limit { work.old.pool.limit < 4294967295 }
        requires steps { self.old.steps < 2000 }
        ensures advanced { IsAdvanced work.old.pool work.old.decls work.new.pool.trees self.old
            self.new (rule_of_items (items_of_view work.old.pool.trees view)) result }
        ensures stands { OnOk result (Stands work.new.pool.trees work.new.decls self.new) }
        ensures same { OnErr result (self.new ≡ self.old) }
        ensures grows { Grows work.old.pool work.new.pool }
        ensures few { OnOk result (length work.new.pool.trees ≤ length work.old.pool.trees
            + needed_by (tree_at work.old.pool.trees (Some self.old.game.root))
            (rule_of_items (items_of_view work.old.pool.trees view))) }
        ensures names { work.new.names ≡ work.old.names }
        ensures decls { work.new.decls ≡ work.old.decls }
    {
        let arrays = self.arrays.as_ref().unwrap();
        let next = attempt(alloc, work, self.game.root, arrays, view)?;
        let sum = self.sum.with_cost(&next.cost)?;
        self.sum = sum;
        self.game = next.game;
        self.arrays = Some(next.arrays);
        self.cost = Some(next.cost);
        self.context = None;
        self.steps += 1;
        Ok(())
    }

    /// Closes a query by a certificate in the last game, up to the sum so far and what the certificate costs. After a refusal the
    /// sequence is as it was; the nodes that the test of a certificate puts are taken back.
    fn close(&mut self, alloc: Global, work: &mut Work, closing: Closing) -> Result<(), PushError>
        requires stands { Stands work.old.pool.trees work.old.decls self.old }
        requires declared { All (IsLive (length work.old.pool.trees)) work.old.decls.list }
        requires live { ChildBelow (length work.old.pool.trees) closing.certificate }
        requires short { nodes_of (tree_at work.old.pool.trees closing.certificate) < 2 ^ 31 }
        requires limit { work.old.pool.limit < 4294967295 }
        requires steps { self.old.steps < 2000 }
        ensures answer { IsCloseAnswer
            (scene_of work.old.pool work.old.decls self.old.game.root) (closing_failure
            (scene_of work.old.pool work.old.decls self.old.game.root) (numbers_of self.old.closed)
            (closing_tree work.old.pool.trees closing))
            (closing_tree work.old.pool.trees closing) self.old self.new result }
        ensures stands { Stands work.new.pool.trees work.new.decls self.new }
        ensures same { OnErr result (Same self.old self.new) }
        ensures kept { work.new.pool.trees ≡ work.old.pool.trees }
        ensures grows { Grows work.old.pool work.new.pool }
        ensures names { work.new.names ≡ work.old.names }
        ensures decls { work.new.decls ≡ work.old.decls }
    {
        if self.closed.is_closed(closing.query) {
            return Err(refused(1));
        }
        self.prepare(alloc, work)?;
        let arrays = self.arrays.as_ref().unwrap();
        let root = self.game.root;
        let query = query_numbered(&work.decls, closing.query);
        if let Some(failure) = check(alloc, work, root, arrays, query, closing.certificate)? {
            return Err(PushError::Refused(Refusal {
                condition: failure.condition,
                place: failure.place,
            }));
        }
        let cost = cost_of_certificate(alloc, work, root, arrays, closing.certificate)?;
        let sums = self.sum.with_cost(&cost)?;
        let secrecy = is_secret(&work.pool, closing.certificate);
        self.closed.note(closing.query, sums.of(secrecy))?;
        self.cost = Some(cost);
        self.context = None;
        self.steps += 1;
        Ok(())
    }

    /// Goes to the next game of a cryptographic step. After a refusal the sequence, the pool's contents and the names are as
    /// they were.
    fn reduce(
        &mut self,
        alloc: Global,
        work: &mut Work,
        reducing: Reducing,
    ) -> Result<(), PushError>
        requires stands { Stands work.old.pool.trees work.old.decls self.old }
        requires declared { All (IsLive (length work.old.pool.trees)) work.old.decls.list }
        requires equivalences { HasEquivalences
            (scene_of work.old.pool work.old.decls self.old.game.root) }
        requires few { length work.old.pool.trees + 4 < 2 ^ 32 }
        requires limit { work.old.pool.limit < 4294967295 }
        requires steps { self.old.steps < 2000 }
        ensures answer { IsReduceAnswer work.old.pool.limit (length work.old.pool.trees)
            (scene_of work.old.pool work.old.decls self.old.game.root) reducing.equivalence
            reducing.key work.new.pool.trees self.old self.new result }
        ensures drawn { OnOk result (DrawsNext work.old.names work.new.names work.old.decls.own
            (scene_of work.old.pool work.old.decls self.old.game.root) reducing.equivalence
            reducing.key (game_in work.new.pool.trees self.new)) }
        ensures stands { Stands work.new.pool.trees work.new.decls self.new }
        ensures same { OnErr result (Same self.old self.new) }
        ensures grows { Grows work.old.pool work.new.pool }
        ensures kept { OnErr result (work.new.pool.trees ≡ work.old.pool.trees) }
        ensures names { take (length work.old.names) work.new.names ≡ work.old.names }
        ensures back { OnErr result (work.new.names ≡ work.old.names) }
        ensures decls { work.new.decls ≡ work.old.decls }
    {
        self.prepare(alloc, work)?;
        let arrays = self.arrays.as_ref().unwrap();
        let Reducing { equivalence, key } = reducing;
        let root = self.game.root;
        let basis = plan(alloc, work, root, arrays, equivalence, key)?;
        let Basis { instances, shape } = basis;
        let step = self.steps + 1;
        let sum = self.sum.with_cost(&advantage(step, equivalence))?;
        let next = apply(alloc, work, root, equivalence, key, &instances, step)?;
        let Next { game, arrays, cost } = next;
        self.game = game;
        self.arrays = Some(arrays);
        self.cost = Some(cost);
        self.context = Some(shape);
        self.sum = sum;
        self.steps = step;
        Ok(())
    }

    /// Takes a step in the last game. After a refusal the sequence, the pool's contents and the names are as they were.
    pub fn push(&mut self, alloc: Global, work: &mut Work, step: Step) -> Result<(), PushError>
        requires stands { Stands work.old.pool.trees work.old.decls self.old }
        requires declared { All (IsLive (length work.old.pool.trees)) work.old.decls.list }
        requires equivalences { HasEquivalences
            (scene_of work.old.pool work.old.decls self.old.game.root) }
        requires live { step.0.0 < length work.old.pool.trees }
        requires short { nodes_of (tree_at work.old.pool.trees (Some step.0)) < 2 ^ 31 }
        requires few { length work.old.pool.trees + 4 < 2 ^ 32 }
        requires limit { work.old.pool.limit < 4294967295 }
        ensures pushed { IsPushed work.old.pool work.old.decls work.new.pool.trees self.old self.new
            (tree_at work.old.pool.trees (Some step.0)) result }
        ensures drawn { (c : Reducing) →
            reducing_in (tree_at work.old.pool.trees (Some step.0)) ≡ Some c →
            OnOk result (DrawsNext work.old.names work.new.names work.old.decls.own
            (scene_of work.old.pool work.old.decls self.old.game.root) c.equivalence c.key
            (game_in work.new.pool.trees self.new)) }
        ensures alone { reducing_in (tree_at work.old.pool.trees (Some step.0)) ≡ None →
            work.new.names ≡ work.old.names }
        ensures stands { Stands work.new.pool.trees work.new.decls self.new }
        ensures same { OnErr result (Same self.old self.new) }
        ensures grows { Grows work.old.pool work.new.pool }
        ensures few { OnOk result (length work.new.pool.trees ≤ length work.old.pool.trees
            + needed_for (scene_of work.old.pool work.old.decls self.old.game.root)
            (tree_at work.old.pool.trees (Some step.0)) (game_in work.new.pool.trees self.new)
            (items_of_step (tree_at work.old.pool.trees (Some step.0)))) }
        ensures kept { OnErr result (work.new.pool.trees ≡ work.old.pool.trees) }
        ensures names { take (length work.old.names) work.new.names ≡ work.old.names }
        ensures back { OnErr result (work.new.names ≡ work.old.names) }
        ensures decls { work.new.decls ≡ work.old.decls }
    {
        if self.steps >= MOST_STEPS {
            return Err(PushError::Steps);
        }
        let Some(items) = view(&work.pool, step) else {
            return Err(refused(0));
        };
        if let Some(closing) = closing_by(items) {
            return self.close(alloc, work, closing);
        }
        if let Some(reducing) = reducing_by(items) {
            return self.reduce(alloc, work, reducing);
        }
        self.prepare(alloc, work)?;
        let before = work.pool.mark();
        let outcome = self.advance(alloc, work, items);
        settle(&mut work.pool, before, outcome)
    }
}
