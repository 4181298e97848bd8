//! A run of all units of a job on one thread, one command after another.

use crate::table::{Table, Unkept};
use app_core::{App, CellName, Inputs, Label, LentEffect, OutOfMemory};
use haar_app::{HaarApp, Unit, Value};
use haar_node::Node;
use std::alloc::{AllocFailed, Global};
use thiserror::Error;

/// Why a run doesn't come to its end.
#[derive(Clone, Copy, Debug, PartialEq, Eq, Error)]
pub enum DriveError {
    #[error("a future is given twice, or isn't one of the command")]
    Given,
    #[error("an entry is put twice, or in no version")]
    Put,
    #[error("an entry is erased or read that isn't there")]
    Missing,
    #[error("units are left, and none is ready")]
    Stuck,
    #[error("a command has no result")]
    NoResult,
    #[error("memory was refused")]
    OutOfMemory,
}

impl From<OutOfMemory> for DriveError {
    fn from(_error: OutOfMemory) -> DriveError {
        DriveError::OutOfMemory
    }
}

impl<T: Drop> From<AllocFailed<T>> for DriveError {
    fn from(_error: AllocFailed<T>) -> DriveError {
        DriveError::OutOfMemory
    }
}

// A unit that needs futures: those of `needs` from this place on, up to those of the unit that is spawned next.
#[derive(Drop)]
struct Waiting {
    unit: Unit,
    from: usize,
}

/// The units that wait, the futures of a command that are given, the entries of all versions, and the results.
#[derive(Drop)]
pub struct Driver {
    ready: Vec<Unit>,
    waiting: Vec<Waiting>,
    needs: Vec<Label>,
    keys: Table<Value>,
    counts: Table<Value>,
    versions: Vec<Table<Node>>,
    results: Vec<Value>,
    tasks: u64,
}

impl Driver {
    /// Nothing yet, and a version for each command; none has the number 0.
    pub fn new(alloc: Global, app: &HaarApp) -> Result<Driver, DriveError> {
        let mut versions = Vec::new(alloc);
        for _ in 0..=app.commands() {
            versions.push(Table::new(alloc))?;
        }
        Ok(Driver {
            ready: Vec::new(alloc),
            waiting: Vec::new(alloc),
            needs: Vec::new(alloc),
            keys: Table::new(alloc),
            counts: Table::new(alloc),
            versions,
            results: Vec::new(alloc),
            tasks: 0,
        })
    }

    /// How many units have run.
    pub fn tasks(&self) -> u64 {
        self.tasks
    }

    /// The values of the results of all commands but fences, in order.
    pub fn results(&self) -> &[Value] {
        self.results.as_slice()
    }

    // The futures of a part of the command: of keys, or of the counts of ranks.
    fn futures(&mut self, part: u8) -> &mut Table<Value> {
        if part == 0 {
            &mut self.keys
        } else {
            &mut self.counts
        }
    }

    // Whether a future is given.
    fn is_given(&self, future: &Label) -> bool {
        let futures = if future.part == 0 {
            &self.keys
        } else {
            &self.counts
        };
        futures.get(future.place).is_some()
    }

    // Lets a unit wait for the futures of these labels.
    fn wait(&mut self, unit: Unit, labels: &[Label]) -> Result<(), DriveError> {
        let from = self.needs.len();
        for label in labels {
            self.needs.push(*label)?;
        }
        self.waiting.push(Waiting { unit, from })?;
        Ok(())
    }

    // Carries out what a unit does.
    #[inline(always)]
    fn carry_out(&mut self, effect: LentEffect<'_, Unit, Value, Node>) -> Result<(), DriveError> {
        match effect {
            LentEffect::Spawn(unit) => {
                self.ready.push(unit)?;
                Ok(())
            }
            LentEffect::SpawnNeeding(unit, labels) => self.wait(unit, labels),
            LentEffect::Give(future, value) => {
                let given = self.futures(future.part).put(future.place, value);
                given.map_err(|unkept| unkept_error(unkept, DriveError::Given))
            }
            LentEffect::Put(entry, node) => {
                let Some(version) = self.versions.get_mut(entry.version as usize) else {
                    return Err(DriveError::Put);
                };
                let put = version.put(entry.place, node);
                put.map_err(|unkept| unkept_error(unkept, DriveError::Put))
            }
            LentEffect::Erase(entry) => self.erase(entry),
        }
    }

    // Erases an entry.
    fn erase(&mut self, entry: CellName) -> Result<(), DriveError> {
        let Some(version) = self.versions.get_mut(entry.version as usize) else {
            return Err(DriveError::Missing);
        };
        match version.take(entry.place) {
            Some(_) => Ok(()),
            None => Err(DriveError::Missing),
        }
    }

    // The cells of the entries that a unit reads.
    fn cells(&self, alloc: Global, app: &HaarApp, unit: &Unit) -> Result<Vec<Node>, DriveError> {
        let mut cells = Vec::new(alloc);
        for index in 0..16u32 {
            let Some(entry) = app.reads(unit, index) else {
                break;
            };
            match self.versions.get(entry.version as usize) {
                Some(version) => match version.get(entry.place) {
                    Some(node) => cells.push(*node)?,
                    None => return Err(DriveError::Missing),
                },
                None => return Err(DriveError::Missing),
            }
        }
        Ok(cells)
    }

    // How many entries the version that a unit counts has; 0 where it counts none.
    fn size(&self, app: &HaarApp, unit: &Unit) -> u64 {
        match app.counts(unit) {
            Some(version) => match self.versions.get(version as usize) {
                Some(version) => version.kept(),
                None => 0,
            },
            None => 0,
        }
    }

    // Runs a unit that is ready, on the values of its needs.
    fn run(
        &mut self,
        alloc: Global,
        app: &HaarApp,
        unit: Unit,
        values: Vec<Value>,
    ) -> Result<(), DriveError> {
        let cells = self.cells(alloc, app, &unit)?;
        let size = self.size(app, &unit);
        let mut effects = app.step(alloc, unit, Inputs::new(values, cells, size))?;
        let mut queue = effects.queue();
        while let Some(effect) = queue.take_first() {
            self.carry_out(effect)?;
        }
        self.tasks = self.tasks.wrapping_add(1);
        Ok(())
    }

    // Whether the unit that was spawned last of those that wait has all its needs.
    fn is_last_ready(&self) -> bool {
        let Some(last) = self.waiting.last() else {
            return false;
        };
        for place in last.from..self.needs.len() {
            match self.needs.get(place) {
                Some(need) if self.is_given(need) => {}
                _ => return false,
            }
        }
        true
    }

    // The values of the needs from this place on, taken out.
    fn values(&mut self, alloc: Global, from: usize) -> Result<Vec<Value>, DriveError> {
        let mut values = Vec::new(alloc);
        for place in from..self.needs.len() {
            let Some(need) = self.needs.get(place).copied() else {
                return Err(DriveError::Stuck);
            };
            match self.futures(need.part).take(need.place) {
                Some(value) => values.push(value)?,
                None => return Err(DriveError::Stuck),
            }
        }
        self.needs.truncate(from);
        Ok(values)
    }

    // Runs the unit that was spawned last of those that wait, if it has all its needs, and else the last of those without
    // needs. False where no unit is left.
    fn run_one(&mut self, alloc: Global, app: &HaarApp) -> Result<bool, DriveError> {
        if self.is_last_ready() {
            let Some(Waiting { unit, from }) = self.waiting.pop() else {
                return Err(DriveError::Stuck);
            };
            let values = self.values(alloc, from)?;
            self.run(alloc, app, unit, values)?;
            return Ok(true);
        }
        match self.ready.pop() {
            Some(unit) => {
                self.run(alloc, app, unit, Vec::new(alloc))?;
                Ok(true)
            }
            None if self.waiting.is_empty() => Ok(false),
            None => Err(DriveError::Stuck),
        }
    }

    // Runs units until none is left.
    fn run_all(&mut self, alloc: Global, app: &HaarApp) -> Result<(), DriveError> {
        for _ in 0..u64::MAX {
            if !self.run_one(alloc, app)? {
                return Ok(());
            }
        }
        Err(DriveError::Stuck)
    }

    // Takes the value of a command's result.
    fn finish(&mut self, future: Label) -> Result<(), DriveError> {
        match self.futures(future.part).take(future.place) {
            Some(value) => {
                self.results.push(value)?;
                Ok(())
            }
            None => Err(DriveError::NoResult),
        }
    }

    /// Runs the units of all commands, one command after another.
    #[inline(never)]
    pub fn run_job(&mut self, alloc: Global, app: &HaarApp) -> Result<(), DriveError> {
        let count = app.commands();
        for before in 0..count {
            let command = before + 1;
            let Some(result) = app.result(command) else {
                continue;
            };
            let mut effects = app.starts(alloc, command, app.ranks)?;
            let mut queue = effects.queue();
            while let Some(effect) = queue.take_first() {
                self.carry_out(effect)?;
            }
            self.run_all(alloc, app)?;
            self.finish(result)?;
        }
        Ok(())
    }
}

// The error of something that isn't kept: the one of its kind, where it was refused.
fn unkept_error(unkept: Unkept, refused: DriveError) -> DriveError {
    match unkept {
        Unkept::Refused => refused,
        Unkept::OutOfMemory => DriveError::OutOfMemory,
    }
}
