//! What no clause says: that memory suffices, that a lock's value is the same for all hands, and that no message is lost.
ghost use Rattle.std.specs.Prelude.{◌≡◌, Some, IfSome, IfOk};
ghost use Rattle.mailbox.specs.Loads.{IsRightLoad};
ghost use Rattle.small_app.specs.Small as small;

use crate::{Inbox, InboxState, Load, Mail, OutOfMemory, Pass, oldest_comes_first};
use app_core::{App, Naming};
use event_lists::Bringer;
use small_app::{SmallApp, Unit};
use std::alloc::Global;
use std::marker::Brand;
use std::sync::Wait;
use std::test::Fail;
use std::thread;
use std::thread::Threads;

#[test]
fn states_are_first_in_first_out(rt: HostRuntime) -> Result<(), Fail> {
    assert_eq!(rt; oldest_comes_first(rt.alloc())?, (Some(5), Some(7), None));
    let mut state = InboxState::new(rt.alloc());
    assert!(rt; state.is_empty());
    for message in 0..40u8 {
        assert!(rt; state.put(message).is_ok());
    }
    assert_eq!(rt; state.len(), 40);
    for message in 0..40u8 {
        assert_eq!(rt; state.take(), Some(message));
    }
    assert_eq!(rt; state.take(), None);
    Ok(())
}

// What comes out is right, whoever put it.
fn take_right<A: App, J: Naming<A>, R: Wait>(
    rt: &R,
    app: &A,
    inbox: &Inbox<Mail<A, J>>,
    pass: &mut Pass<Mail<A, J>>,
) -> Option<Load<A::Unit, A::Value>>
    requires named { J.app ≡ Some app.now }
    ensures { IfSome result (λ l. IsRightLoad (A.is_unit app.now) (A.due_of app.now) (A.needs_of app.now) (A.right_value app.now) l) }
{
    let _ = app;
    let mail = inbox.take(rt, pass)?;
    Some(mail.into_load())
}

fn carry_named<A: App, J: Naming<A>, R: Wait>(
    rt: &R,
    alloc: Global,
    app: &A,
    load: Load<A::Unit, A::Value>,
) -> Result<Option<Load<A::Unit, A::Value>>, OutOfMemory>
    requires named { J.app ≡ Some app.now }
    requires right { IsRightLoad (A.is_unit app.now) (A.due_of app.now) (A.needs_of app.now) (A.right_value app.now) load }
    ensures { IfOk result (λ o. IfSome o (λ l. IsRightLoad (A.is_unit app.now) (A.due_of app.now) (A.needs_of app.now) (A.right_value app.now) l)) }
{
    let inbox: Inbox<Mail<A, J>> = Inbox::new(alloc)?;
    let mut sender = inbox.pass(rt);
    let mut receiver = inbox.pass(rt);
    if inbox.put(rt, &mut sender, Mail::new(load)).is_err() {
        return Err(OutOfMemory);
    }
    Ok(take_right(rt, app, &inbox, &mut receiver))
}

// A unit goes through an inbox. What comes out is a right load of the application.
fn carry<A: App, R: Wait>(
    rt: &R,
    alloc: Global,
    app: &A,
    load: Load<A::Unit, A::Value>,
) -> Result<Option<Load<A::Unit, A::Value>>, OutOfMemory>
    requires { IsRightLoad (A.is_unit app.now) (A.due_of app.now) (A.needs_of app.now) (A.right_value app.now) load }
    ensures { IfOk result (λ o. IfSome o (λ l. IsRightLoad (A.is_unit app.now) (A.due_of app.now) (A.needs_of app.now) (A.right_value app.now) l)) }
{
    carry_named::<A, Brand, R>(rt, alloc, app, load)
}

#[test]
fn a_unit_goes_through_an_inbox(rt: HostRuntime) -> Result<(), Fail> {
    let app = SmallApp { ranks: 2 };
    let load = Load::Unit {
        unit: Unit::Fill,
        due: Some(Bringer::Main { rank: 0 }),
    };
    let came = carry(&rt, rt.alloc(), &app, load)?;
    let expected = Load::Unit {
        unit: Unit::Fill,
        due: Some(Bringer::Main { rank: 0 }),
    };
    assert!(rt; came == Some(expected));
    Ok(())
}

// One thread sends a mail, and the other looks for one.
fn share_mail<A: App, J: Naming<A> + Send + Sync, R: Threads + Wait + Sync>(
    rt: &R,
    inbox: &Inbox<Mail<A, J>>,
    mail: Mail<A, J>,
) -> (bool, Option<Mail<A, J>>) {
    thread::join(
        rt,
        move || inbox.put(rt, &mut inbox.pass(rt), mail).is_ok(),
        move || inbox.take(rt, &mut inbox.pass(rt)),
    )
}

#[test]
fn mail_crosses_threads(rt: HostRuntime) -> Result<(), Fail> {
    let inbox: Inbox<Mail<SmallApp, Brand>> = Inbox::new(rt.alloc())?;
    let load = Load::Unit {
        unit: Unit::Clear,
        due: None,
    };
    let (put, early) = share_mail(&rt, &inbox, Mail::new(load));
    assert!(rt; put);
    let late = inbox.take(&rt, &mut inbox.pass(&rt));
    assert!(rt; early.is_some() != late.is_some());
    Ok(())
}

const COUNT: u32 = 1000;

// A message with its sender, and its number there.
#[derive(Clone, Copy, Debug, PartialEq, Eq)]
struct Numbered {
    sender: bool,
    number: u32,
}

fn put_all<R: Wait>(rt: &R, inbox: &Inbox<Numbered>, sender: bool) -> bool {
    let mut pass = inbox.pass(rt);
    for number in 0..COUNT {
        if inbox
            .put(rt, &mut pass, Numbered { sender, number })
            .is_err()
        {
            return false;
        }
    }
    true
}

// Whether the messages of each sender come out in its order, until all were taken.
fn take_all<R: Wait>(rt: &R, inbox: &Inbox<Numbered>) -> bool {
    let mut pass = inbox.pass(rt);
    let mut first = 0u32;
    let mut second = 0u32;
    for _ in rt.forever() {
        if first == COUNT && second == COUNT {
            return true;
        }
        if let Some(message) = inbox.take(rt, &mut pass) {
            let next = if message.sender {
                &mut first
            } else {
                &mut second
            };
            if message.number != *next {
                return false;
            }
            *next = next.saturating_add(1);
        }
    }
    unreachable!()
}

fn share<R: Threads + Wait + Sync>(rt: &R, inbox: &Inbox<Numbered>) -> ((bool, bool), bool) {
    thread::join(
        rt,
        move || thread::join(
            rt,
            move || put_all(rt, inbox, true),
            move || put_all(rt, inbox, false),
        ),
        move || take_all(rt, inbox),
    )
}

// Two senders put a thousand messages each, and a receiver takes them all: those of each sender in its order.
#[test]
fn messages_of_a_sender_keep_their_order(rt: HostRuntime) -> Result<(), Fail> {
    let inbox = Inbox::new(rt.alloc())?;
    let (put, in_order) = share(&rt, &inbox);
    assert_eq!(rt; put, (true, true));
    assert!(rt; in_order);
    assert!(rt; inbox.take(&rt, &mut inbox.pass(&rt)).is_none());
    Ok(())
}
