//! What a caller knows of a future.
ghost use Rattle.std.specs.Prelude.{◌≡◌};
ghost use Rattle.future_cell.specs.CellState.{KnowTheSame};

/// What a caller knows of one future: nothing, or its value. A note takes no bytes; contracts see the cell that it is
/// of, as `cell`, and the value, once it was seen, as `known`.
pub use once_cell::race::Note as CellNote;

/// Any two notes of one future that know a value know the same one, whichever threads they come from.
pub fn notes_agree<T>(one: &mut CellNote<T>, other: &mut CellNote<T>)
    requires { other.old.cell ≡ one.old.cell }
    ensures agree { KnowTheSame one.old.known other.old.known }
    ensures one { one.new ≡ one.old }
    ensures other { other.new ≡ other.old }
{
    one.compare(other.again());
}
