//! What no clause says: that memory suffices, that a new note finds the value that another note assigned, and which
//! callbacks `assign` returns. The answers are worked out by hand.
ghost use Rattle.std.specs.Prelude.{◌≡◌, IsTrue, Some};

use crate::{
    AssignError, Callback, Callbacks, CellNote, FutureCell, FutureId, NotAdded, Pending,
    notes_agree,
};
use app_core::Label;
use std::sync::Wait;
use std::test::Fail;
use std::thread;
use std::thread::Threads;

const ID: FutureId = FutureId {
    rank: 0,
    label: Label {
        command: 1,
        part: 0,
        place: 1,
    },
};

#[test]
fn first_value_stays(rt: HostRuntime) {
    let cell = FutureCell::new(rt.alloc(), ID);
    let mut note = cell.note();
    assert!(rt; !cell.probe(&mut note));
    let first = cell.assign(&rt, &mut note, 7u64);
    assert!(rt; first.is_ok_and(|callbacks| callbacks.as_slice().is_empty()));
    let second = cell.assign(&rt, &mut note, 8);
    assert_eq!(rt; second.err(), Some(AssignError::Already(8)));
    assert_eq!(rt; cell.get(&mut note).copied(), Some(7));
    let mut other = cell.note();
    assert_eq!(rt; cell.get(&mut other).copied(), Some(7));
    assert!(rt; cell.probe(&mut other));
    assert_eq!(rt; cell.id(), ID);
}

#[test]
fn callback_comes_out_once(rt: HostRuntime) {
    let cell = FutureCell::new(rt.alloc(), ID);
    let mut note = cell.note();
    let early = Callback::Task { id: 3, index: 0 };
    let late = Callback::Task { id: 4, index: 0 };
    assert_eq!(rt; cell.on_assigned(&rt, &mut note, early), Ok(()));
    let assigned = cell.assign(&rt, &mut note, 1u64);
    assert!(rt; assigned.is_ok_and(|callbacks| callbacks.as_slice() == [early].as_slice()));
    assert_eq!(rt;
        cell.on_assigned(&rt, &mut note, late),
        Err(NotAdded::Assigned(late))
    );
}

#[test]
fn callbacks_come_out_in_order(rt: HostRuntime) -> Result<(), Fail> {
    let mut pending = Pending::new(rt.alloc());
    let callbacks = [
        Callback::Remote(ID),
        Callback::Task { id: 2, index: 1 },
        Callback::Local(ID),
    ];
    for callback in callbacks {
        assert_eq!(rt; pending.add(callback), Ok(()));
    }
    assert!(rt; !pending.is_closed());
    let out = pending.close().ok_or("it was open")?;
    assert_eq!(rt; out.as_slice(), callbacks.as_slice());
    assert_eq!(rt; out.len(), 3);
    assert!(rt; pending.is_closed());
    assert!(rt; pending.close().is_none());
    assert_eq!(rt;
        pending.add(callbacks[0]),
        Err(NotAdded::Assigned(callbacks[0]))
    );
    Ok(())
}

#[test]
fn lists_of_none_one_and_more_callbacks(rt: HostRuntime) -> Result<(), Fail> {
    let mut callbacks = Callbacks::new(rt.alloc());
    assert!(rt; callbacks.is_empty());
    for count in 1..6usize {
        callbacks.push(Callback::Task { id: 7, index: 0 })?;
        assert_eq!(rt; callbacks.len(), count);
        assert!(rt; !callbacks.is_empty());
    }
    Ok(())
}

#[test]
fn future_of_one_owner(rt: HostRuntime) {
    let mut cell = FutureCell::new(rt.alloc(), ID);
    let mut note = cell.note();
    let early = Callback::Task { id: 3, index: 0 };
    let late = Callback::Task { id: 4, index: 1 };
    assert_eq!(rt; cell.on_assigned_mut(&mut note, early), Ok(()));
    let assigned = cell.assign_mut(&mut note, 7u64);
    assert!(rt; assigned.is_ok_and(|callbacks| callbacks.as_slice() == [early].as_slice()));
    assert_eq!(rt;
        cell.on_assigned_mut(&mut note, late),
        Err(NotAdded::Assigned(late))
    );
    let second = cell.assign_mut(&mut note, 8);
    assert_eq!(rt; second.err(), Some(AssignError::Already(8)));
    assert_eq!(rt; cell.get(&mut note).copied(), Some(7));
    let mut other = cell.note();
    assert!(rt; cell.probe(&mut other));
}

#[test]
fn refusals_have_texts(rt: HostRuntime) -> Result<(), Fail> {
    let callback = Callback::Local(ID);
    let not_added = [
        NotAdded::Assigned(callback),
        NotAdded::OutOfMemory(callback),
    ];
    let errors = [AssignError::Already(8u8), AssignError::OutOfMemory(8)];
    let texts = ["the future has a value", "out of memory"];
    for ((refused, error), text) in not_added.iter().zip(errors.iter()).zip(texts) {
        assert_eq!(rt; refused.to_string(rt.alloc())?.as_str(), text);
        assert_eq!(rt; error.to_string(rt.alloc())?.as_str(), text);
    }
    Ok(())
}

// Whether the value was assigned, and what is known then.
type Offered = (bool, CellNote<u64>);

fn offer<R: Wait>(rt: &R, cell: &FutureCell<u64>, value: u64) -> Offered
    ensures cell { result.1.cell ≡ cell.now.cell }
    ensures known { IsTrue result.0 → result.1.known ≡ Some value }
{
    let mut note = cell.note();
    let assigned = cell.assign(rt, &mut note, value).is_ok();
    (assigned, note)
}

// Two threads assign. That not both do is proved, by what their notes would know.
fn race<R: Threads + Wait + Sync>(rt: &R, cell: &FutureCell<u64>) -> (Offered, Offered)
    ensures first { result.0.1.cell ≡ cell.now.cell }
    ensures second { result.1.1.cell ≡ cell.now.cell }
    ensures once { IsTrue result.0.0 → IsTrue result.1.0 → ⊥ }
{
    let ((first, mut one), (second, mut other)) = thread::join(
        rt,
        move || -> Offered
            ensures { (result.1.cell ≡ cell.entry.now.cell) × (IsTrue result.0 → result.1.known ≡ Some 1) }
        { offer(rt, cell, 1) },
        move || -> Offered
            ensures { (result.1.cell ≡ cell.entry.now.cell) × (IsTrue result.0 → result.1.known ≡ Some 2) }
        { offer(rt, cell, 2) },
    );
    notes_agree(&mut one, &mut other);
    ((first, one), (second, other))
}

#[test]
fn one_of_two_threads_assigns(rt: HostRuntime) {
    for round in 0..200u32 {
        let cell = FutureCell::new(rt.alloc(), ID);
        let ((first, mut one), (second, mut other)) = race(&rt, &cell);
        let value = if first { 1 } else { 2 };
        assert_ne!(rt; first, second, "in round {round}");
        assert_eq!(rt;
            cell.get(&mut one).copied(),
            Some(value),
            "in round {round}"
        );
        assert_eq!(rt;
            cell.get(&mut other).copied(),
            Some(value),
            "in round {round}"
        );
    }
}
