//! The labels and dues of units.
ghost use Rattle.std.specs.Prelude.{◌≡◌};
ghost use Rattle.haar_base.specs.Units as units;

use crate::names;
use app_core::Label;
use haar_base::Unit;

/// The name of a unit.
pub fn label(unit: &Unit) -> Label
    ensures { result ≡ units.label_of unit.now }
{
    match unit {
        Unit::Down(down) => names::down(down.command, down.key),
        Unit::Up(up) => names::up(up.command, up.key),
        Unit::Clear { command, key } => names::clear(*command, *key),
        Unit::Count { command, rank } => names::count(*command, *rank),
        Unit::Total { command, ranks: _ } => names::total(*command),
    }
}

/// The one future that a unit must see to, if there is one.
pub fn due(unit: &Unit) -> Option<Label>
    ensures { result ≡ units.due_of unit.now }
{
    match unit {
        Unit::Down(down) => Some(names::down(down.command, down.key)),
        Unit::Up(up) => Some(names::down(up.command, up.key)),
        Unit::Clear { .. } => None,
        Unit::Count { command, rank } => Some(names::counted(*command, *rank)),
        Unit::Total { command, ranks: _ } => Some(names::result(*command)),
    }
}
