//! A run of all units of a job on one thread.

use crate::orders::Order;
use app_core::{App, CellName, CommandKind, Inputs, Label, LentEffect, OutOfMemory};
use haar_app::{HaarApp, ResultError, Unit, Value};
use haar_node::Node;
use std::alloc::Global;
use std::collections::BTreeMap;
use std::test::Fail;
use tree_key::Text;

/// A unit that waits for its needs and for the entries that it reads.
#[derive(Drop)]
struct Waiting {
    unit: Unit,
    needs: Vec<Label>,
    rank: u32,
}

/// The units that wait, and what each rank has.
#[derive(Drop)]
pub struct Driver {
    waiting: Vec<Waiting>,
    given: BTreeMap<(u32, Label), Value>,
    results: BTreeMap<Label, Value>,
    entries: BTreeMap<(u32, CellName), Node>,
    order: Order,
    turn: u64,
    pub tasks: u64,
}

impl Driver {
    pub fn new(alloc: Global, order: Order) -> Driver {
        Driver {
            waiting: Vec::new(alloc),
            given: BTreeMap::new(alloc),
            results: BTreeMap::new(alloc),
            entries: BTreeMap::new(alloc),
            order,
            turn: 0,
            tasks: 0,
        }
    }

    // Carries an effect of a unit on a rank out.
    fn carry_out(
        &mut self,
        alloc: Global,
        app: &HaarApp,
        rank: u32,
        effect: LentEffect<'_, Unit, Value, Node>,
    ) -> Result<(), Fail> {
        match effect {
            LentEffect::Spawn(unit) => {
                let home = app.home(&unit, app.ranks);
                self.waiting.push(Waiting {
                    unit,
                    needs: Vec::new(alloc),
                    rank: home,
                })?;
            }
            LentEffect::SpawnNeeding(unit, labels) => {
                let needs = labels.to_vec(alloc)?;
                let home = app.home(&unit, app.ranks);
                if home != rank {
                    return Err(Fail::from("a unit with needs runs elsewhere"));
                }
                self.waiting.push(Waiting {
                    unit,
                    needs,
                    rank: home,
                })?;
            }
            LentEffect::Give(future, value) => {
                let home = app.future_home(&future, app.ranks);
                let copy = app.copy_value(alloc, &value)?;
                self.results.insert(future, copy)?;
                if self.given.insert((home, future), value)?.is_some() {
                    return Err(Fail::from("a future is given twice"));
                }
            }
            LentEffect::Put(entry, node) => {
                if self.entries.insert((rank, entry), node)?.is_some() {
                    return Err(Fail::from("an entry is put twice"));
                }
            }
            LentEffect::Erase(entry) => {
                if self.entries.remove(&(rank, entry)).is_none() {
                    return Err(Fail::from("an entry is erased that isn't there"));
                }
            }
        }
        Ok(())
    }

    // The cells that a unit reads on its rank. None where one isn't there yet.
    fn cells(
        &self,
        alloc: Global,
        app: &HaarApp,
        unit: &Unit,
        rank: u32,
    ) -> Result<Option<Vec<Node>>, Fail> {
        let mut cells = Vec::new(alloc);
        for index in 0..16u32 {
            let Some(entry) = app.reads(unit, index) else {
                return Ok(Some(cells));
            };
            match self.entries.get(&(rank, entry)) {
                Some(node) => cells.push(*node)?,
                None => return Ok(None),
            }
        }
        Ok(Some(cells))
    }

    // How many entries of a version a rank has.
    fn size(&self, version: u32, rank: u32) -> u64 {
        let mut count = 0u64;
        for (place, _) in self.entries.iter() {
            if place.0 == rank && place.1.version == version {
                count = count.saturating_add(1);
            }
        }
        count
    }

    // Whether all needs are given on the rank.
    fn is_given(&self, needs: &[Label], rank: u32) -> bool {
        for need in needs {
            if self.given.get(&(rank, *need)).is_none() {
                return false;
            }
        }
        true
    }

    // Runs a unit that is ready, with these cells.
    fn run(
        &mut self,
        alloc: Global,
        app: &HaarApp,
        task: Waiting,
        cells: Vec<Node>,
    ) -> Result<(), Fail> {
        let Waiting { unit, needs, rank } = task;
        let mut values = Vec::new(alloc);
        for need in needs.as_slice() {
            match self.given.remove(&(rank, *need)) {
                Some(value) => values.push(value)?,
                None => return Err(Fail::from("a need isn't there")),
            }
        }
        let size = match app.counts(&unit) {
            Some(version) => self.size(version, rank),
            None => 0,
        };
        let mut effects = app.step(alloc, unit, Inputs::new(values, cells, size))?;
        let mut queue = effects.queue();
        while let Some(effect) = queue.take_first() {
            self.carry_out(alloc, app, rank, effect)?;
        }
        self.tasks = self.tasks.saturating_add(1);
        Ok(())
    }

    // Tries the units that wait until none is left.
    fn run_all(&mut self, alloc: Global, app: &HaarApp) -> Result<(), Fail> {
        let mut failures = 0u64;
        for _turn in 0..1_000_000_000u64 {
            let count = self.waiting.len();
            if count == 0 {
                return Ok(());
            }
            self.turn = self.turn.wrapping_add(1);
            let place = if failures > 50 {
                self.turn as usize % count
            } else {
                self.order.place(count, self.turn)
            };
            let task = self.waiting.remove(place);
            let ready = self.is_given(&task.needs, task.rank);
            let cells = self.cells(alloc, app, &task.unit, task.rank)?;
            match cells {
                Some(cells) if ready => {
                    failures = 0;
                    self.run(alloc, app, task, cells)?;
                }
                _ => {
                    failures = failures.saturating_add(1);
                    if failures > 100_000 {
                        return Err(Fail::from("no unit is ready"));
                    }
                    match self.order {
                        Order::Last => self.waiting.insert(0, task)?,
                        _ => self.waiting.push(task)?,
                    }
                }
            }
        }
        Err(Fail::from("too many turns"))
    }

    // Starts all commands, and waits at each fence.
    fn run_commands(&mut self, alloc: Global, app: &HaarApp) -> Result<(), Fail> {
        let count = app.commands();
        for before in 0..count {
            let command = before + 1;
            if app.kind(command) == CommandKind::Fence {
                self.run_all(alloc, app)?;
            } else {
                let mut effects = app.starts(alloc, command, app.ranks)?;
                let mut queue = effects.queue();
                while let Some(effect) = queue.take_first() {
                    self.carry_out(alloc, app, 0, effect)?;
                }
            }
        }
        self.run_all(alloc, app)
    }

    /// The text of all results, up to the first command that overflows, and that command.
    pub fn text(&mut self, alloc: Global, app: &HaarApp) -> Result<(Text, Option<u32>), Fail> {
        self.run_commands(alloc, app)?;
        let mut text = Text::new(alloc);
        let count = app.commands();
        for before in 0..count {
            let command = before + 1;
            let Some(future) = app.result(command) else {
                continue;
            };
            let Some(value) = self.results.get(&future) else {
                return Err(Fail::from("a result isn't there"));
            };
            match app.result_text(alloc, command, value) {
                Ok(more) => text.add(more.bytes())?,
                Err(ResultError::Overflow) => return Ok((text, Some(command))),
                Err(ResultError::OutOfMemory) => return Err(Fail::from("no memory")),
            }
        }
        Ok((text, None))
    }

    // The values of all results: one for each command but fences, in order.
    fn values(&self, alloc: Global, app: &HaarApp) -> Result<Vec<Value>, Fail> {
        let mut values = Vec::new(alloc);
        let count = app.commands();
        for before in 0..count {
            let Some(future) = app.result(before + 1) else {
                continue;
            };
            match self.results.get(&future) {
                Some(value) => values.push(app.copy_value(alloc, value)?)?,
                None => return Err(Fail::from("a result isn't there")),
            }
        }
        Ok(values)
    }

    /// The same, made of all results at once.
    pub fn lines(&self, alloc: Global, app: &HaarApp) -> Result<(Text, Option<u32>), Fail> {
        let values = self.values(alloc, app)?;
        let lines = app.lines_of_results(alloc, &values)?;
        Ok((lines.text, lines.overflow))
    }
}
