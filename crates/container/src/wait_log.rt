//! The log of the look-ups that wait in a bin, and the places of each name's look-ups in it.
ghost use Rattle.std.specs.Prelude.{◌≡◌, [], ◌∷◌, ◌++◌, None, IfOk, OnErr, OnOk, slice_set};
ghost use Rattle.std.specs.List.{slice_index_or};
ghost use Rattle.container.specs.LookUps.{first_waited};
ghost use Rattle.container.specs.WaitLog.{AddsPlace, HasTheSamePlaces, callback_in, callbacks_at, emptied, left_in, listed};

use crate::OutOfMemory;
use crate::look_ups::LookUp;
use app_core::CellName;
use future_cell::Callbacks;
use std::alloc::Global;
use std::collections::HashMap;

/// The places of one name's look-ups in the log, in order. Almost always there is one, which takes no memory of its own.
#[derive(Drop)]
pub(crate) struct Places {
    pub(crate) first: usize,
    pub(crate) later: Vec<usize>,
}

// Adds a place of a name, after its others.
pub(crate) fn add_place(
    alloc: Global,
    places: &mut HashMap<CellName, Places>,
    name: CellName,
    place: usize,
) -> Result<(), OutOfMemory>
    ensures ok { OnOk result (AddsPlace places.old places.new name place) }
    ensures err { OnErr result (HasTheSamePlaces places.old places.new) }
{
    if let Some(known) = places.get_mut(&name) {
        return add_later(known, place);
    }
    let first = Places {
        first: place,
        later: Vec::new(alloc),
    };
    if places.insert(name, first).is_err() {
        return Err(OutOfMemory);
    }
    Ok(())
}

// Adds a place after the others.
fn add_later(known: &mut Places, place: usize) -> Result<(), OutOfMemory>
    ensures ok { OnOk result (listed known.new ≡ listed known.old ++ place ∷ []) }
    ensures err { OnErr result (listed known.new ≡ listed known.old) }
{
    if known.later.push(place).is_err() {
        return Err(OutOfMemory);
    }
    Ok(())
}

// The callbacks of the look-ups at these places, in order.
pub(crate) fn collect(
    alloc: Global,
    log: &[Option<LookUp>],
    first: usize,
    later: &[usize],
) -> Result<Callbacks, OutOfMemory>
    ensures { IfOk result (λ c. c ≡ callbacks_at log.now (first ∷ later.now)) }
{
    let mut callbacks = Callbacks::new(alloc);
    add_callback(&mut callbacks, log, first)?;
    for place in later {
        add_callback(&mut callbacks, log, *place)?;
    }
    Ok(callbacks)
}

// Adds the callback of the look-up at a place, if there is one.
fn add_callback(
    callbacks: &mut Callbacks,
    log: &[Option<LookUp>],
    place: usize,
) -> Result<(), OutOfMemory>
    ensures { OnOk result (callbacks.new ≡ callbacks.old ++ callback_in (slice_index_or log.now place None)) }
{
    if place < log.len()
        && let Some(look_up) = log[place]
    {
        callbacks.push(look_up.callback)?;
    }
    Ok(())
}

// Takes the look-ups at these places out: their slots are empty from now on.
pub(crate) fn empty(log: &mut Vec<Option<LookUp>>, first: usize, later: &[usize])
    ensures { log.new.items ≡ emptied log.old.items (first ∷ later.now) }
{
    empty_at(log, first);
    for place in later {
        empty_at(log, *place);
    }
}

fn empty_at(log: &mut Vec<Option<LookUp>>, place: usize)
    ensures { log.new.items ≡ slice_set log.old.items place None }
{
    if place < log.len() {
        log[place] = None;
    }
}

// The name of the first look-up that waits for an entry of a version.
pub(crate) fn waited(log: &[Option<LookUp>], version: u32) -> Option<CellName>
    ensures { result ≡ first_waited version (left_in log.now) }
{
    for slot in log {
        if let Some(look_up) = slot
            && look_up.name.version == version
        {
            return Some(look_up.name);
        }
    }
    None
}
