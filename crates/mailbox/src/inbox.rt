//! The inbox of a rank.
ghost use Rattle.std.specs.Prelude.{◌≡◌, IfErr};

use crate::inbox_state::InboxState;
use crate::{OutOfMemory, Refused};
use crossbeam_utils::CachePadded;
use std::alloc::Global;
use std::marker::PhantomData;
use std::sync::atomic::{AtomicBool, Ordering};
use std::sync::{Mutex, Wait};

/// The messages that wait for a rank. The hands of all ranks share it by reference: each may put, and those of the rank
/// take.
///
/// A lock's value is known by its type alone, so the clauses on what is put and taken are those of [`InboxState`], and
/// a message that comes out has what its type states.
#[derive(Drop)]
pub struct Inbox<M> {
    shared: CachePadded<Shared<M>>,
}

// The messages, and whether there are any: written with the lock alone, and read without it, so that a hand that finds
// none takes no lock.
#[derive(Drop)]
struct Shared<M> {
    state: Mutex<InboxState<M>>,
    has_messages: AtomicBool,
}

/// The right of one hand to put and take.
#[derive(Drop)]
pub struct Pass<M> {
    of: PhantomData<M>,
}

impl<M: Drop> Inbox<M> {
    /// An inbox without messages.
    pub fn new(alloc: Global) -> Result<Inbox<M>, OutOfMemory> {
        let shared = Shared {
            state: Mutex::new(InboxState::new(alloc)),
            has_messages: AtomicBool::new(false),
        };
        Ok(Inbox {
            shared: CachePadded::new(shared),
        })
    }

    /// A pass for one hand. It may wait for other threads.
    pub fn pass<R: Wait>(&self, _rt: &R) -> Pass<M> {
        Pass { of: PhantomData }
    }

    /// Adds the message last. Where there is no memory for it, it comes back. It may wait for other threads.
    pub fn put<R: Wait>(&self, rt: &R, _pass: &mut Pass<M>, message: M) -> Result<(), Refused<M>>
        ensures { IfErr result (λ e. e.value ≡ message) }
    {
        let mut state = self.shared.state.lock(rt);
        state.put(message)?;
        if state.len() == 1 {
            self.shared.has_messages.store(true, Ordering::SeqCst);
        }
        Ok(())
    }

    /// Takes the first message out, if one waits. It may wait for other threads, and takes no memory.
    pub fn take<R: Wait>(&self, rt: &R, _pass: &mut Pass<M>) -> Option<M> {
        if !self.shared.has_messages.load(Ordering::SeqCst) {
            return None;
        }
        let mut state = self.shared.state.lock(rt);
        let message = state.take();
        if state.is_empty() {
            self.shared.has_messages.store(false, Ordering::SeqCst);
        }
        message
    }
}
