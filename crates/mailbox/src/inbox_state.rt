//! The list of the messages that wait.
ghost use Rattle.std.specs.Prelude.{◌≡◌, ◌↔◌, ◌==◌, ◌∷◌, ◌++◌, [], length, option_to_list, IfErr, IsNone, OnErr, OnOk};

use crate::Refused;
use std::alloc::Global;
use std::collections::VecDeque;
use std::marker::Model;

/// The messages that wait, the oldest first. Contracts see the list of them.
///
/// A message that comes out is one that was put, so it has whatever the type of the messages states.
#[derive(Drop)]
pub struct InboxState<M> {
    messages: VecDeque<M>,
}

impl<M> Model for InboxState<M> {
    ghost use Rattle.std.specs.Prelude.{List};

    ghost Value = { List M };

    ghost view = { λ s. s.messages.items };
}

impl<M> InboxState<M> {
    /// No messages. It takes no memory; `alloc` is where that of later ones will come from.
    pub fn new(alloc: Global) -> InboxState<M>
        ensures { result ≡ [] }
    {
        InboxState {
            messages: VecDeque::new(alloc),
        }
    }

    /// Adds the message last. Where there is no memory for it, the messages stay and it comes back.
    pub fn put(&mut self, message: M) -> Result<(), Refused<M>>
        ensures ok { OnOk result (self.new ≡ self.old ++ message ∷ []) }
        ensures err { OnErr result (self.new ≡ self.old) }
        ensures back { IfErr result (λ e. e.value ≡ message) }
    {
        self.messages.push_back(message)
    }

    /// Takes the first message out. None exactly where none waits. It takes no memory.
    pub fn take(&mut self) -> Option<M>
        ensures first { self.old ≡ option_to_list result ++ self.new }
        ensures none { IsNone result ↔ (self.old ≡ []) }
    {
        self.messages.pop_front()
    }

    /// How many messages wait.
    pub fn len(&self) -> usize
        ensures { result ≡ length self.now }
    {
        self.messages.len()
    }

    /// Whether none waits.
    pub fn is_empty(&self) -> bool
        ensures { result ≡ (length self.now == 0) }
    {
        self.messages.is_empty()
    }
}
