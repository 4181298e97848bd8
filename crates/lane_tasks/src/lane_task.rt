//! A task beside its carrier, from its submission to its run.
ghost use Rattle.std.specs.Prelude.{◌≡◌, ◌≤◌, ◌<◌, ◌↔◌, ℕ, None, Some, IfOk, IfSome, IsFalse, IsNone, IsSome, IsTrue, Contains, length, map, replicate, slice_set};
ghost use Rattle.std.specs.List.{slice_index_or};
ghost use Rattle.app_core.specs.Inputs.{AreRight};
ghost use Rattle.app_core.specs.Needs.{max_needs};
ghost use Rattle.depend.specs.Slots.{IsReady};
ghost use Rattle.event_lists.specs.declared.event.TaskName.{TaskName};
ghost use Rattle.event_lists.specs.declared.mark.Item.TheVariants.{Task as TaskItem};
ghost use Rattle.event_lists.specs.Futures.{futures_by, needs_of};
ghost use Rattle.task_tables.specs.Places.{IsEmptyPlaceOf};
ghost use Rattle.task_tables.specs.Tasks.{IsReadyTask};
ghost use Rattle.world_carriers.specs.Carried.{CarriesTask};
ghost use Rattle.world_words.specs.Lanes.{ToldView, task_name};
ghost use Rattle.lane_tasks.specs.Tolds.{AreTold, IsTableOf, KnowsGiven};
ghost use Rattle.lane_tasks.specs.LaneTasks.{IsPlaceOf, with_told_cell, with_told_value};

use crate::OutOfMemory;
use app_core::{App, CellName, Label};
use depend::Waiting;
use event_lists::{Bringer, Future};
use std::alloc::Global;
use std::marker::{Model, PhantomData};
use task_tables::{Opened, Task};
use world_carriers::WordsNaming;
use world_words::{Carrier, Told};

/// What a hand has of a task that it counted, and packed into a carrier.
#[derive(Drop)]
pub struct Submission<U> {
    pub unit: U,
    /// Its number at the rank `to`, where it was submitted.
    pub number: u64,
    pub to: u32,
    /// Who created its due, if it has one.
    pub due: Option<Bringer>,
    /// Who created the futures that it needs: who submitted it.
    pub by: Option<Bringer>,
    pub carrier: Carrier,
}

/// A task beside its carrier, with a place for each future that it needs and each entry that it reads.
///
/// What fills a place is right for it, and with each value is kept what a lane told that knew the value's future as given,
/// whoever filled the place. It is two boxes, so that tables and pools move it as two words.
#[derive(Drop)]
pub struct LaneTask<A: App, J: WordsNaming<A>> {
    task: Task<A, J>,
    tokens: Box<Tokens>,
    by: PhantomData<J>,
}

// What goes beside a task.
#[derive(Drop)]
struct Tokens {
    by: Option<Bringer>,
    to: u32,
    carrier: Carrier,
    tolds: Waiting<Told>,
}

impl<A: App, J: WordsNaming<A>> Model for LaneTask<A, J> {
    ghost use Rattle.std.specs.Prelude.{◌≡◌, IfSome};
    ghost use Rattle.world_carriers.specs.Carried.{CarriesTask};
    ghost use Rattle.world_words.specs.Lanes.{task_name};
    ghost use Rattle.lane_tasks.specs.LaneTasks.{LaneTaskData, IsLaneTask};

    ghost Value = { LaneTaskData A.Unit A.Value A.Cell };

    ghost view = { λ t. record { task = t.task; by = t.tokens.value.by; carrier = t.tokens.value.carrier; tolds = t.tokens.value.tolds } };

    ghost invariant = { λ t. IsLaneTask J.words (record { task = t.task; by = t.tokens.value.by; carrier = t.tokens.value.carrier; tolds = t.tokens.value.tolds })
        × IfSome J.app (λ app. CarriesTask t.task.number (task_name (A.label_of app t.task.unit) t.task.needs (A.due_of app t.task.unit)) t.tokens.value.carrier)
        × (t.tokens.value.carrier.owed.to ≡ t.tokens.value.to) };
}

impl<A: App, J: WordsNaming<A>> LaneTask<A, J> {
    /// A task that was counted, beside its carrier. Its places are empty.
    ///
    /// # Errors
    ///
    /// `OutOfMemory` where there is no room for it; then the carrier is lost.
    pub fn new(
        alloc: Global,
        app: &A,
        submission: Submission<A::Unit>,
        needs: &[Label],
    ) -> Result<LaneTask<A, J>, OutOfMemory>
        requires named { J.app ≡ Some app.now }
        requires unit { A.is_unit app.now submission.unit }
        requires due { IsSome submission.due ↔ IsSome (A.due_of app.now submission.unit) }
        requires needs { A.needs_of app.now submission.unit ≡ needs.now }
        requires few { length needs.now ≤ max_needs }
        requires table { IsTableOf J.words submission.carrier.table }
        requires to { submission.carrier.owed.to ≡ submission.to }
        requires carries { CarriesTask submission.number (task_name (A.label_of app.now submission.unit) needs.now (A.due_of app.now submission.unit)) submission.carrier }
        requires futures { needs_of (TaskItem submission.to submission.number) submission.carrier.seen ≡ futures_by submission.by needs.now }
        ensures task { IfOk result (λ t. t.task ≡ record { unit = submission.unit; number = submission.number; due = submission.due; needs = needs.now; values = replicate (length needs.now) None; cells = replicate (length (A.reads_of app.now submission.unit)) None }) }
        ensures tokens { IfOk result (λ t. (t.by ≡ submission.by) × (t.carrier ≡ submission.carrier) × (t.tolds ≡ replicate (length needs.now) None)) }
    {
        let Submission {
            unit,
            number,
            to,
            due,
            by,
            carrier,
        } = submission;
        let task = Task::new(alloc, app, unit, number, due, needs)?;
        let tolds = Waiting::new(alloc, needs.len() as u32)?;
        let tokens = Tokens {
            by,
            to,
            carrier,
            tolds,
        };
        match Box::new(alloc, tokens) {
            Ok(tokens) => Ok(LaneTask {
                task,
                tokens,
                by: PhantomData,
            }),
            Err(_) => Err(OutOfMemory),
        }
    }

    /// Its unit.
    pub fn unit(&self) -> &A::Unit
        ensures unit { result.now ≡ self.now.task.unit }
        ensures right { IfSome J.app (λ app. A.is_unit app self.now.task.unit) }
    {
        self.task.unit()
    }

    /// Its number at the rank that it goes to.
    pub fn number(&self) -> u64
        ensures { result ≡ self.now.task.number }
    {
        self.task.number()
    }

    /// The rank that it goes to.
    pub fn to(&self) -> u32
        ensures { result ≡ self.now.carrier.owed.to }
    {
        self.tokens.to
    }

    /// Who created the futures that it needs.
    pub fn by(&self) -> Option<Bringer>
        ensures { result ≡ self.now.by }
    {
        self.tokens.by
    }

    /// The labels of the futures that it needs.
    pub fn needs(&self) -> &[Label]
        ensures { result.now ≡ self.now.task.needs }
    {
        self.task.needs()
    }

    /// Whether each place is filled.
    pub fn is_ready(&self) -> bool
        ensures ready { IsTrue result → IsReadyTask self.now.task }
        ensures waits { IsFalse result → IsReadyTask self.now.task → ⊥ }
    {
        self.task.is_ready()
    }

    /// Fills the place of the needed future with this index with its value, and keeps what a lane told that knew the
    /// future as given. False exactly where this isn't an empty place for this future; then both are dropped, and all
    /// stays.
    pub fn fill_value(&mut self, index: u32, future: Future, value: A::Value, told: Told) -> bool
        requires right { IfSome J.app (λ app. A.right_value app future.label value) }
        requires table { IsTableOf J.words told.table }
        requires given { KnowsGiven future told }
        ensures fits { IsTrue result → IsPlaceOf self.old index future }
        ensures refused { IsFalse result → IsPlaceOf self.old index future → ⊥ }
        ensures filled { IsTrue result → self.new ≡ with_told_value self.old index value told }
        ensures same { IsFalse result → self.new ≡ self.old }
    {
        if !is_created_by(self.tokens.by, future.by) {
            return false;
        }
        if !self.task.fill_value(index, future.label, value) {
            return false;
        }
        keep_told(&mut self.tokens.tolds, index, told);
        true
    }

    /// Fills the place of the entry that is read with this index with the entry's cell. False exactly where this isn't an
    /// empty place for this entry; then all stays.
    pub fn fill_cell(&mut self, app: &A, index: u32, entry: CellName, cell: A::Cell) -> bool
        requires named { J.app ≡ Some app.now }
        requires right { A.right_cell app.now entry cell }
        ensures fits { IsTrue result → IsEmptyPlaceOf (A.reads_of app.now self.old.task.unit) self.old.task.cells index entry }
        ensures refused { IsFalse result → IsEmptyPlaceOf (A.reads_of app.now self.old.task.unit) self.old.task.cells index entry → ⊥ }
        ensures filled { IsTrue result → self.new ≡ with_told_cell self.old index cell }
        ensures same { IsFalse result → self.new ≡ self.old }
    {
        self.task.fill_cell(app, index, entry, cell)
    }

    // All of it, where each place is filled.
    fn open(self) -> LaneOpened<A::Unit, A::Value, A::Cell>
        requires { IsReadyTask self.task }
        ensures unit { (result.opened.unit ≡ self.task.unit) × (result.opened.number ≡ self.task.number) × (result.opened.due ≡ self.task.due) }
        ensures values { map Some result.opened.values.items ≡ self.task.values }
        ensures cells { map Some result.opened.cells.items ≡ self.task.cells }
        ensures right { IfSome J.app (λ app. A.is_unit app result.opened.unit × (IsSome result.opened.due ↔ IsSome (A.due_of app result.opened.unit))
            × AreRight (A.right_value app) (A.needs_of app result.opened.unit) result.opened.values.items
            × AreRight (A.right_cell app) (A.reads_of app result.opened.unit) result.opened.cells.items) }
        ensures carrier { result.carrier ≡ self.carrier }
        ensures tolds { map Some result.tolds.items ≡ self.tolds }
        ensures table { IsTableOf J.words result.carrier.table }
        ensures tables { (told : ToldView) → Contains result.tolds.items told → IsTableOf J.words told.table }
        ensures carries { (name : TaskName) × CarriesTask result.opened.number name result.carrier }
        ensures named { IfSome J.app (λ app. CarriesTask result.opened.number (task_name (A.label_of app result.opened.unit) self.task.needs (A.due_of app result.opened.unit)) result.carrier) }
        ensures told { AreTold result.carrier.owed.to result.opened.number result.carrier.seen result.tolds.items }
    {
        let Tokens {
            by: _,
            to: _,
            carrier,
            tolds,
        } = Box::into_inner(self.tokens);
        LaneOpened {
            opened: self.task.open(),
            carrier,
            tolds: tolds.finish(),
        }
    }
}

/// What a task that is ready has: its unit with its inputs, its carrier, and what was told of the futures that it needs.
#[derive(Drop)]
pub struct LaneOpened<U, V, C> {
    pub opened: Opened<U, V, C>,
    pub carrier: Carrier,
    pub tolds: Vec<Told>,
}

/// A task each of whose places is filled. Contracts see the task beside its carrier.
#[derive(Drop)]
pub struct LaneReady<A: App, J: WordsNaming<A>> {
    task: LaneTask<A, J>,
}

impl<A: App, J: WordsNaming<A>> Model for LaneReady<A, J> {
    ghost use Rattle.task_tables.specs.Tasks.{IsReadyTask};
    ghost use Rattle.lane_tasks.specs.LaneTasks.{LaneTaskData};

    ghost Value = { LaneTaskData A.Unit A.Value A.Cell };

    ghost view = { λ r. r.task };

    ghost invariant = { λ r. IsReadyTask r.task.task };
}

impl<A: App, J: WordsNaming<A>> LaneReady<A, J> {
    /// The task, each of whose places is filled.
    pub fn new(task: LaneTask<A, J>) -> LaneReady<A, J>
        requires { IsReadyTask task.task }
        ensures { result ≡ task }
    {
        LaneReady { task }
    }

    /// Its task.
    pub fn task(&self) -> &LaneTask<A, J>
        ensures task { result.now ≡ self.now }
        ensures ready { IsReadyTask self.now.task }
    {
        &self.task
    }

    /// The unit with all that its step is given, right for the unit; the carrier of the task; and what lanes told that knew
    /// its needs as given. It takes no memory.
    pub fn into_parts(self) -> LaneOpened<A::Unit, A::Value, A::Cell>
        ensures unit { (result.opened.unit ≡ self.task.unit) × (result.opened.number ≡ self.task.number) × (result.opened.due ≡ self.task.due) }
        ensures values { map Some result.opened.values.items ≡ self.task.values }
        ensures cells { map Some result.opened.cells.items ≡ self.task.cells }
        ensures right { IfSome J.app (λ app. A.is_unit app result.opened.unit × (IsSome result.opened.due ↔ IsSome (A.due_of app result.opened.unit))
            × AreRight (A.right_value app) (A.needs_of app result.opened.unit) result.opened.values.items
            × AreRight (A.right_cell app) (A.reads_of app result.opened.unit) result.opened.cells.items) }
        ensures carrier { result.carrier ≡ self.carrier }
        ensures tolds { map Some result.tolds.items ≡ self.tolds }
        ensures table { IsTableOf J.words result.carrier.table }
        ensures tables { (told : ToldView) → Contains result.tolds.items told → IsTableOf J.words told.table }
        ensures carries { (name : TaskName) × CarriesTask result.opened.number name result.carrier }
        ensures named { IfSome J.app (λ app. CarriesTask result.opened.number (task_name (A.label_of app result.opened.unit) self.task.needs (A.due_of app result.opened.unit)) result.carrier) }
        ensures told { AreTold result.carrier.owed.to result.opened.number result.carrier.seen result.tolds.items }
    {
        self.task.open()
    }
}

// Whether it was created by him.
fn is_created_by(by: Option<Bringer>, him: Bringer) -> bool
    ensures { IsTrue result ↔ (by ≡ Some him) }
{
    by == Some(him)
}

// Fills an empty place with what was told.
fn keep_told(tolds: &mut Waiting<Told>, index: u32, told: Told)
    requires within { index < length tolds.old }
    requires empty { IsNone (slice_index_or tolds.old index None) }
    ensures { tolds.new ≡ slice_set tolds.old index (Some told) }
{
    match tolds.learn(index, told) {
        Ok(_) => {}
        Err(_) => unreachable!(),
    }
}
