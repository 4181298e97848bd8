//! A task, from its submission to its run.
ghost use Rattle.std.specs.Prelude.{◌≡◌, ◌<◌, ◌≤◌, ◌↔◌, None, Some, IsFalse, IsNone, IsSome, IsTrue, IfOk, IfSome, length, map, replicate, slice_get, slice_set};
ghost use Rattle.std.specs.List.{slice_index_or};
ghost use Rattle.app_core.specs.Inputs.{AreRight};
ghost use Rattle.app_core.specs.Needs.{max_needs};
ghost use Rattle.task_tables.specs.Places.{IsEmptyPlaceOf};
ghost use Rattle.task_tables.specs.Tasks.{IsReadyTask, IsTaskOf, with_cell, with_value};

use crate::OutOfMemory;
use app_core::{App, CellName, Label, Naming};
use depend::Waiting;
use event_lists::Bringer;
use smallvec::SmallVec;
use std::alloc::Global;
use std::marker::{Model, PhantomData};

/// A task of the application that `J` names: its unit, its number at its rank, who created its due, and a place for each
/// future that it needs and for each entry that it reads. What fills a place is right for it, whoever filled it.
///
/// It is one box from its submission to its run, so that tables and pools move it as one word.
#[derive(Drop)]
pub struct Task<A: App, J: Naming<A>> {
    parts: Box<Parts<A::Unit, A::Value, A::Cell>>,
    of: PhantomData<J>,
}

// The parts of a task.
#[derive(Drop)]
struct Parts<U, V, C> {
    unit: U,
    number: u64,
    due: Option<Bringer>,
    needs: SmallVec<Label, 2>,
    values: Waiting<V>,
    cells: Waiting<C>,
}

impl<A: App, J: Naming<A>> Model for Task<A, J> {
    ghost use Rattle.std.specs.Prelude.{◌≡◌, IfSome, length};
    ghost use Rattle.event_lists.specs.contracts.future.Bringer as bringer;
    ghost use Rattle.app_core.specs.contracts.label.Label as label;
    ghost use Rattle.task_tables.specs.Tasks.{TaskData, task_code, IsTaskOf};

    ghost Value = { TaskData A.Unit A.Value A.Cell };

    ghost coded = { task_code A.Unit.code bringer.the_row.coded label.the_row.coded A.Value.code A.Cell.code };

    ghost view = { λ t. record { unit = t.parts.value.unit; number = t.parts.value.number; due = t.parts.value.due; needs = t.parts.value.needs.items; values = t.parts.value.values; cells = t.parts.value.cells } };

    ghost invariant = { λ t. (length t.parts.value.values ≡ length t.parts.value.needs.items)
        × IfSome J.app (λ app. IsTaskOf (A.is_unit app) (A.due_of app) (A.needs_of app) (A.reads_of app) (A.right_value app) (A.right_cell app)
        (record { unit = t.parts.value.unit; number = t.parts.value.number; due = t.parts.value.due; needs = t.parts.value.needs.items; values = t.parts.value.values; cells = t.parts.value.cells })) };
}

/// What a task that is ready has: its unit with the values that it needs and the cells that it reads, in order.
#[derive(Drop)]
pub struct Opened<U, V, C> {
    pub unit: U,
    pub number: u64,
    pub due: Option<Bringer>,
    pub values: Vec<V>,
    pub cells: Vec<C>,
}

impl<A: App, J: Naming<A>> Task<A, J> {
    /// A task of this number whose places are empty. `due` is who created the unit's due, if the unit has one.
    pub fn new(
        alloc: Global,
        app: &A,
        unit: A::Unit,
        number: u64,
        due: Option<Bringer>,
        needs: &[Label],
    ) -> Result<Task<A, J>, OutOfMemory>
        requires named { J.app ≡ Some app.now }
        requires unit { A.is_unit app.now unit }
        requires due { IsSome due ↔ IsSome (A.due_of app.now unit) }
        requires needs { A.needs_of app.now unit ≡ needs.now }
        requires few { length needs.now ≤ max_needs }
        ensures { IfOk result (λ t. t ≡ record { unit = unit; number = number; due = due; needs = needs.now; values = replicate (length needs.now) None; cells = replicate (length (A.reads_of app.now unit)) None }) }
    {
        let reads = count_reads(app, &unit);
        let parts = empty_parts(alloc, unit, number, due, needs, reads)?;
        match Box::new(alloc, parts) {
            Ok(parts) => Ok(Task {
                parts,
                of: PhantomData,
            }),
            Err(_) => Err(OutOfMemory),
        }
    }

    /// Its unit.
    pub fn unit(&self) -> &A::Unit
        ensures unit { result.now ≡ self.now.unit }
        ensures right { IfSome J.app (λ app. A.is_unit app self.now.unit) }
    {
        &self.parts.unit
    }

    /// Its number.
    pub fn number(&self) -> u64
        ensures { result ≡ self.now.number }
    {
        self.parts.number
    }

    /// The futures that it needs.
    pub fn needs(&self) -> &[Label]
        ensures { result.now ≡ self.now.needs }
    {
        self.parts.needs.as_slice()
    }

    /// Whether each place is filled.
    pub fn is_ready(&self) -> bool
        ensures ready { IsTrue result → IsReadyTask self.now }
        ensures waits { IsFalse result → IsReadyTask self.now → ⊥ }
    {
        self.parts.values.is_ready() && self.parts.cells.is_ready()
    }

    /// Fills the place of the needed future with this index with its value. False exactly where this isn't an empty place
    /// for this future; then the value is dropped, and all stays.
    pub fn fill_value(&mut self, index: u32, future: Label, value: A::Value) -> bool
        requires { IfSome J.app (λ app. A.right_value app future value) }
        ensures fits { IsTrue result → IsEmptyPlaceOf self.old.needs self.old.values index future }
        ensures refused { IsFalse result → IsEmptyPlaceOf self.old.needs self.old.values index future → ⊥ }
        ensures filled { IsTrue result → self.new ≡ with_value self.old index value }
        ensures same { IsFalse result → self.new ≡ self.old }
    {
        if !is_need(self.parts.needs.as_slice(), index, future) {
            return false;
        }
        fill(&mut self.parts.values, index, value)
    }

    /// Fills the place of the entry that is read with this index with the entry's cell. False exactly where this isn't an
    /// empty place for this entry; then all stays.
    pub fn fill_cell(&mut self, app: &A, index: u32, entry: CellName, cell: A::Cell) -> bool
        requires named { J.app ≡ Some app.now }
        requires right { A.right_cell app.now entry cell }
        ensures fits { IsTrue result → IsEmptyPlaceOf (A.reads_of app.now self.old.unit) self.old.cells index entry }
        ensures refused { IsFalse result → IsEmptyPlaceOf (A.reads_of app.now self.old.unit) self.old.cells index entry → ⊥ }
        ensures filled { IsTrue result → self.new ≡ with_cell self.old index cell }
        ensures same { IsFalse result → self.new ≡ self.old }
    {
        if !is_read(app, &self.parts.unit, index, entry) {
            return false;
        }
        fill(&mut self.parts.cells, index, cell)
    }

    /// The unit with all that its step is given. It takes no memory.
    pub fn open(self) -> Opened<A::Unit, A::Value, A::Cell>
        requires { IsReadyTask self }
        ensures unit { (result.unit ≡ self.unit) × (result.number ≡ self.number) × (result.due ≡ self.due) }
        ensures values { map Some result.values.items ≡ self.values }
        ensures cells { map Some result.cells.items ≡ self.cells }
        ensures right { IfSome J.app (λ app. A.is_unit app result.unit × (IsSome result.due ↔ IsSome (A.due_of app result.unit))
            × AreRight (A.right_value app) (A.needs_of app result.unit) result.values.items
            × AreRight (A.right_cell app) (A.reads_of app result.unit) result.cells.items) }
    {
        let Parts {
            unit,
            number,
            due,
            needs: _,
            values,
            cells,
        } = Box::into_inner(self.parts);
        Opened {
            unit,
            number,
            due,
            values: values.finish(),
            cells: cells.finish(),
        }
    }
}

// How many entries a unit reads.
fn count_reads<A: App>(app: &A, unit: &A::Unit) -> u32
    requires { A.is_unit app.now unit.now }
    ensures count { result ≡ length (A.reads_of app.now unit.now) }
    ensures few { result ≤ 16 }
{
    for index in 0..16u32 {
        if app.reads(unit, index).is_none() {
            return index;
        }
    }
    16
}

// The parts of a task whose places are empty.
fn empty_parts<U: Drop, V: Drop, C: Drop>(
    alloc: Global,
    unit: U,
    number: u64,
    due: Option<Bringer>,
    needs: &[Label],
    reads: u32,
) -> Result<Parts<U, V, C>, OutOfMemory>
    requires few { length needs.now ≤ max_needs }
    requires few_reads { reads ≤ 16 }
    ensures parts { IfOk result (λ p. (p.unit ≡ unit) × (p.number ≡ number) × (p.due ≡ due) × (p.needs.items ≡ needs.now)) }
    ensures places { IfOk result (λ p. (p.values ≡ replicate (length needs.now) None) × (p.cells ≡ replicate reads None)) }
{
    let values = Waiting::new(alloc, needs.len() as u32)?;
    let cells = Waiting::new(alloc, reads)?;
    Ok(Parts {
        unit,
        number,
        due,
        needs: SmallVec::from_slice(alloc, needs)?,
        values,
        cells,
    })
}

// Whether the need of this index is the future.
fn is_need(needs: &[Label], index: u32, future: Label) -> bool
    ensures { IsTrue result ↔ (slice_get needs.now index ≡ Some future) }
{
    match needs.get(index as usize) {
        Some(need) => *need == future,
        None => false,
    }
}

// Whether the read of this index is the entry.
fn is_read<A: App>(app: &A, unit: &A::Unit, index: u32, entry: CellName) -> bool
    ensures { IsTrue result ↔ (slice_get (A.reads_of app.now unit.now) index ≡ Some entry) }
{
    match app.reads(unit, index) {
        Some(read) => read == entry,
        None => false,
    }
}

// Fills an empty place. False exactly where it is filled; then all stays.
fn fill<T: Drop>(places: &mut Waiting<T>, index: u32, value: T) -> bool
    requires { index < length places.old }
    ensures empty { IsTrue result → IsNone (slice_index_or places.old index None) }
    ensures twice { IsFalse result → IsNone (slice_index_or places.old index None) → ⊥ }
    ensures filled { IsTrue result → places.new ≡ slice_set places.old index (Some value) }
    ensures same { IsFalse result → places.new ≡ places.old }
{
    places.learn(index, value).is_ok()
}
