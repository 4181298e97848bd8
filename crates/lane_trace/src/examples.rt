//! Room of events that was counted by hand. Each function's contract is a law, and its body is empty.
ghost use Rattle.std.specs.Prelude.{◌≡◌};
ghost use Rattle.event_lists.specs.declared.event.Event.TheVariants.{Ran, Enter};
ghost use Rattle.lane_trace.specs.Traces.{need_count, row_count, HasRoomFor, room_after, room_of_any, joined_room, IsWithin};
ghost use Rattle.lane_trace.specs.Examples.{gives, submits, receives, room};

/// The needs of an event are those of a task, and its rows those of a receipt.
pub fn needs_and_rows_are_counted()
    ensures needs_of_a_task { need_count (submits 2) ≡ 2 }
    ensures needs_of_a_task_without { need_count (submits 0) ≡ 0 }
    ensures needs_of_a_message { need_count gives ≡ 0 }
    ensures needs_of_a_receipt { need_count (receives 3) ≡ 0 }
    ensures rows_of_a_receipt { row_count (receives 3) ≡ 3 }
    ensures rows_of_a_task { row_count (submits 2) ≡ 0 }
{}

/// An event has room where each of the three rooms is enough for it, and lowers each by what it takes.
pub fn room_is_judged()
    ensures one_event { HasRoomFor (Enter 1) (room 1 0 0) }
    ensures no_event { HasRoomFor (Enter 1) (room 0 5 5) → ⊥ }
    ensures needs { HasRoomFor (submits 2) (room 1 2 0) }
    ensures a_need_too_few { HasRoomFor (submits 2) (room 9 1 9) → ⊥ }
    ensures rows { HasRoomFor (receives 3) (room 1 0 3) }
    ensures a_row_too_few { HasRoomFor (receives 3) (room 9 9 2) → ⊥ }
    ensures after_an_event { room_after (Ran 0 1 2) (room 5 6 7) ≡ room 4 6 7 }
    ensures after_a_task { room_after (submits 2) (room 5 6 7) ≡ room 4 4 7 }
    ensures after_a_receipt { room_after (receives 3) (room 5 6 7) ≡ room 4 6 4 }
    ensures more_is_enough { IsWithin (room 1 2 3) (room 1 3 5) }
    ensures fewer_events { IsWithin (room 1 2 3) (room 0 3 5) → ⊥ }
    ensures fewer_needs { IsWithin (room 1 2 3) (room 1 1 5) → ⊥ }
    ensures fewer_rows { IsWithin (room 1 2 3) (room 1 3 2) → ⊥ }
    ensures joined { joined_room (room 5 2 7) (room 1 3 7) ≡ room 5 3 7 }
    ensures of_any { room_of_any 2 ≡ room 2 32 32 }
{}
