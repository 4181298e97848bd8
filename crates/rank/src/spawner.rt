//! Who spawns.
ghost use Rattle.std.specs.Prelude.{◌↔◌, IsSome};

use app_core::{App, Label};
use event_lists::{Bringer, Future};

/// Who spawns units: the main of a rank, or a task, with the future that it must fulfil if it has one.
#[derive(Clone, Copy)]
pub(crate) struct Spawner {
    pub(crate) by: Bringer,
    pub(crate) due: Option<Future>,
}

impl Spawner {
    // The task of this number at a rank, with the label of its due and who created that future.
    pub(crate) fn task(
        rank: u32,
        number: u64,
        label: Option<Label>,
        by: Option<Bringer>,
    ) -> Spawner {
        Spawner {
            by: Bringer::Task { rank, number },
            due: due_of(label, by),
        }
    }

    // The main of rank 0, which makes the starts of commands.
    pub(crate) fn main() -> Spawner {
        Spawner {
            by: Bringer::Main { rank: 0 },
            due: None,
        }
    }
}

fn due_of(label: Option<Label>, by: Option<Bringer>) -> Option<Future> {
    Some(Future {
        by: by?,
        label: label?,
    })
}

// Who created the due of a unit that is spawned: the spawner, unless it passes its own due on.
pub(crate) fn bringer_of_due<A: App>(app: &A, spawner: Spawner, unit: &A::Unit) -> Option<Bringer>
    ensures { IsSome result ↔ IsSome (A.due_of app.now unit.now) }
{
    let label = app.due(unit)?;
    match spawner.due {
        Some(own) if own.label == label => Some(own.by),
        _ => Some(spawner.by),
    }
}
