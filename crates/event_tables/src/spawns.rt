//! Who spawns with an event.
ghost use Rattle.std.specs.Prelude.{◌≡◌};
ghost use Rattle.event_tables.specs.Spawns.{spawner as spawner_of};

use event_lists::{Bringer, Event, Item, Parcel};
use event_rules::events::bringer;

/// Who spawns with an event, on a lane of this rank with this in hand. None where it spawns nothing, or with a message in
/// hand.
pub fn spawner(rank: u32, hand: Option<Item>, event: &Event) -> Option<Bringer>
    ensures { result ≡ spawner_of rank hand event.now }
{
    match event {
        Event::Sent {
            number: _,
            to: _,
            parcel: Parcel::Unit { unit: _, due: _ },
        }
        | Event::Submitted { number: _, task: _ } => bringer(rank, hand),
        _ => None,
    }
}
