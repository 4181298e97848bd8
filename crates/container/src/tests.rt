//! What no clause says: that memory suffices, which bin a name goes to, and what lies behind a lock. The answers are
//! worked out by hand.
ghost use Rattle.std.specs.Prelude.{◌≡◌, Some, slice_get, IfOk, IfSome};

use crate::{BinState, Container, InsertError, OutOfMemory, StillWaited, bin_of};
use app_core::{App, CellName, Naming};
use future_cell::{Callback, Callbacks};
use small_app::{SmallApp, Unit};
use std::alloc::Global;
use std::marker::Brand;
use std::sync::Wait;
use std::test::Fail;
use std::thread;
use std::thread::Threads;

const fn name(version: u32, place: u64) -> CellName
    ensures { result ≡ record { version = version; place = place } }
{
    CellName { version, place }
}

const fn task(id: u64) -> Callback {
    Callback::Task { id, index: 0 }
}

// Whether an insertion handed out just these callbacks.
fn hands_out(inserted: Result<Callbacks, InsertError<u8>>, expected: &[Callback]) -> bool {
    match inserted {
        Ok(callbacks) => callbacks.as_slice() == expected,
        Err(_) => false,
    }
}

#[test]
fn first_put_stays(rt: HostRuntime) {
    let name = name(1, 1);
    let mut bin = BinState::new(rt.alloc());
    assert_eq!(rt; bin.find_or_wait(name, task(3)), Ok(None));
    assert_eq!(rt; bin.drop_version(1), Err(StillWaited { name }));
    assert!(rt; hands_out(bin.insert(name, 9), &[task(3)]));
    assert_eq!(rt; bin.insert(name, 8).err(), Some(InsertError::Present(8)));
    assert_eq!(rt; bin.find(name), Some(9));
    assert_eq!(rt; bin.find_or_wait(name, task(4)), Ok(Some(9)));
    assert_eq!(rt; bin.replace(name, 6), Some(9));
    assert_eq!(rt; bin.erase(name), Some(6));
    assert_eq!(rt; bin.erase(name), None);
    assert_eq!(rt; bin.replace(name, 5), None);
}

#[test]
fn callbacks_of_a_name_come_out_in_order(rt: HostRuntime) -> Result<(), Fail> {
    let mut bin = BinState::new(rt.alloc());
    let waits = [
        (name(1, 5), 1u64),
        (name(2, 5), 2),
        (name(1, 5), 3),
        (name(2, 6), 4),
        (name(1, 5), 5),
        (name(2, 5), 6),
    ];
    for (sought, id) in waits {
        assert_eq!(rt; bin.find_or_wait(sought, task(id)), Ok(None));
    }
    assert!(rt; hands_out(bin.insert(name(3, 5), 0), &[]));
    assert!(rt; hands_out(bin.insert(name(1, 5), 7), &[task(1), task(3), task(5)]));
    assert_eq!(rt; bin.drop_version(2), Err(StillWaited { name: name(2, 5) }));
    assert!(rt; hands_out(bin.insert(name(2, 6), 8), &[task(4)]));
    assert!(rt; hands_out(bin.insert(name(2, 5), 9), &[task(2), task(6)]));
    assert_eq!(rt; bin.drop_version(2), Ok(2));
    assert_eq!(rt;
        bin.insert(name(1, 5), 1).err(),
        Some(InsertError::Present(1))
    );
    Ok(())
}

// Two look-ups wait for each of a hundred names, and entries are put from the last name down, while others come to wait.
#[test]
fn hundreds_of_look_ups_wait(rt: HostRuntime) {
    let mut bin = BinState::new(rt.alloc());
    for id in 0..200u64 {
        assert_eq!(rt; bin.find_or_wait(name(1, id % 100), task(id)), Ok(None));
    }
    for place in (1..100u64).rev() {
        assert_eq!(rt; bin.drop_version(1), Err(StillWaited { name: name(1, 0) }));
        assert_eq!(rt; bin.find_or_wait(name(2, place), task(place)), Ok(None));
        let expected = [task(place), task(place + 100)];
        assert!(rt;
            hands_out(bin.insert(name(1, place), 7), &expected),
            "at {place}"
        );
    }
    assert!(rt; hands_out(bin.insert(name(1, 0), 7), &[task(0), task(100)]));
    assert_eq!(rt; bin.drop_version(1), Ok(100));
    assert_eq!(rt; bin.drop_version(2), Err(StillWaited { name: name(2, 99) }));
    for place in 1..100u64 {
        assert!(rt;
            hands_out(bin.insert(name(2, place), 8), &[task(place)]),
            "at {place}"
        );
    }
    assert_eq!(rt; bin.drop_version(2), Ok(99));
}

#[test]
fn versions_are_dropped_one_at_a_time(rt: HostRuntime) {
    let mut bin = BinState::new(rt.alloc());
    for version in 1..4u32 {
        for place in 0..100u64 {
            assert!(rt; bin.insert(name(version, place), place).is_ok());
        }
    }
    assert_eq!(rt; bin.erase(name(2, 50)), Some(50));
    let sizes = [(1, 100), (2, 99), (3, 100), (4, 0)];
    for (version, size) in sizes {
        assert_eq!(rt; bin.size_of(version), size, "of version {version}");
    }
    assert_eq!(rt; bin.drop_version(2), Ok(99));
    assert_eq!(rt; bin.drop_version(2), Ok(0));
    assert_eq!(rt; bin.find(name(2, 7)), None);
    assert_eq!(rt; bin.find(name(1, 7)), Some(7));
    assert_eq!(rt; bin.size_of(3), 100);
}

#[test]
fn names_are_spread_over_sixteen_bins(rt: HostRuntime) -> Result<(), Fail> {
    let bins: Container<SmallApp, Brand> = Container::new(rt.alloc(), 3)?;
    assert_eq!(rt; bins.rank(), 3);
    for place in 0..48u64 {
        let mut access = bins.access(&rt, name(7, place));
        assert!(rt; access.bin().put(name(7, place), 0).is_ok());
    }
    for number in 0..16u32 {
        let mut access = bins.access_bin(&rt, number);
        assert_eq!(rt; access.bin().state().size_of(7), 3, "in bin {number}");
        let place = u64::from(number) + 16;
        assert_eq!(rt; bin_of(name(7, place)), number);
        assert_eq!(rt; access.bin().state().find(name(7, place)), Some(0));
    }
    assert_eq!(rt; bins.size_local(&rt, 7), 48);
    assert_eq!(rt; bins.size_local(&rt, 6), 0);
    Ok(())
}

// Puts an entry that is right. False where no memory is left, or the name has one.
fn put<A: App, J: Naming<A>, R: Wait>(
    rt: &R,
    app: &A,
    bins: &Container<A, J>,
    name: CellName,
    cell: A::Cell,
) -> bool
    requires named { J.app ≡ Some app.now }
    requires right { A.right_cell app.now name cell }
{
    bins.access(rt, name).bin().put(name, cell).is_ok()
}

// Looks the first entry up that a unit reads. What is found is right for its name.
fn look<A: App, J: Naming<A>, R: Wait>(
    rt: &R,
    app: &A,
    bins: &Container<A, J>,
    unit: &A::Unit,
) -> Result<Option<A::Cell>, OutOfMemory>
    requires named { J.app ≡ Some app.now }
    requires unit { A.is_unit app.now unit.now }
    ensures { IfSome (slice_get (A.reads_of app.now unit.now) 0) (λ name. IfOk result (λ o. IfSome o (λ cell. A.right_cell app.now name cell))) }
{
    let Some(name) = app.reads(unit, 0) else {
        return Ok(None);
    };
    let mut access = bins.access(rt, name);
    access.bin().find_or_wait(name, task(1))
}

// One thread puts an entry while another looks one up.
fn put_and_look<A: App, J: Naming<A> + Send + Sync, R: Threads + Wait + Sync>(
    rt: &R,
    alloc: Global,
    app: &A,
    name: CellName,
    cell: A::Cell,
    unit: &A::Unit,
) -> Result<(bool, Option<A::Cell>), OutOfMemory>
    requires named { J.app ≡ Some app.now }
    requires right { A.right_cell app.now name cell }
    requires unit { A.is_unit app.now unit.now }
    ensures { IfSome (slice_get (A.reads_of app.now unit.now) 0) (λ name. IfOk result (λ r. IfSome r.1 (λ cell. A.right_cell app.now name cell))) }
{
    let shared: Container<A, J> = Container::new(alloc, 0)?;
    let bins = &shared;
    let (was_put, found) = thread::join(
        rt,
        move || -> bool
            requires named { J.app ≡ Some app.now }
            requires right { A.right_cell app.now name cell }
        { put(rt, app, bins, name, cell) },
        move || -> Result<Option<A::Cell>, OutOfMemory>
            requires named { J.app ≡ Some app.now }
            requires unit { A.is_unit app.now unit.now }
            ensures { IfSome (slice_get (A.reads_of app.entry.now unit.entry.now) 0) (λ name. IfOk result (λ o. IfSome o (λ cell. A.right_cell app.entry.now name cell))) }
        { look(rt, app, bins, unit) },
    );
    match found? {
        Some(cell) => Ok((was_put, Some(cell))),
        None => Ok((was_put, look(rt, app, bins, unit)?)),
    }
}

// The same, where the name of the application is picked.
fn put_and_look_named<A: App, R: Threads + Wait + Sync>(
    rt: &R,
    alloc: Global,
    app: &A,
    name: CellName,
    cell: A::Cell,
    unit: &A::Unit,
) -> Result<(bool, Option<A::Cell>), OutOfMemory>
    requires right { A.right_cell app.now name cell }
    requires unit { A.is_unit app.now unit.now }
    ensures { IfSome (slice_get (A.reads_of app.now unit.now) 0) (λ name. IfOk result (λ r. IfSome r.1 (λ cell. A.right_cell app.now name cell))) }
{
    put_and_look::<A, Brand, R>(rt, alloc, app, name, cell, unit)
}

#[test]
fn a_second_thread_finds_what_was_put(rt: HostRuntime) {
    let app = SmallApp { ranks: 1 };
    for round in 0..100u32 {
        let found = put_and_look_named(&rt, rt.alloc(), &app, name(1, 2), 5, &Unit::Read);
        assert_eq!(rt; found, Ok((true, Some(5))), "in round {round}");
    }
}
