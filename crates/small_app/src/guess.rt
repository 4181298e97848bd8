//! The units of the small application's last work command.
ghost use Rattle.std.specs.Prelude.{◌≡◌, [], Some, length, OnOk};
ghost use Rattle.small_app.specs.Guess as guess;

use crate::unit::Unit;
use app_core::{CellName, Effect, Effects, Label, OutOfMemory};

/// A unit of the last work command.
#[derive(Clone, Copy, Debug, PartialEq, Eq)]
pub enum GuessUnit {
    /// Gives a number, of which nothing is said.
    Guess,

    /// Where the guess is 0 it puts the entry and gives the result. Else it hands its due to the late unit.
    Early,

    /// Puts the entry and gives the result.
    Late,
}

/// The result of the command.
pub(crate) const GUESS_RESULT: Label = Label {
    command: 5,
    part: 0,
    place: 1,
};

/// What the early unit needs.
pub(crate) const GUESS_FUTURE: Label = Label {
    command: 5,
    part: 0,
    place: 2,
};

const GUESS_ENTRY: CellName = CellName {
    version: 2,
    place: 1,
};

impl GuessUnit {
    /// Its label.
    pub(crate) fn label(self) -> Label
        ensures { result ≡ guess.label_of self }
    {
        let part = match self {
            GuessUnit::Guess => return GUESS_FUTURE,
            GuessUnit::Early => 1,
            GuessUnit::Late => 2,
        };
        Label {
            command: 5,
            part,
            place: 1,
        }
    }

    /// The future that it must fulfil.
    pub(crate) fn due(self) -> Label
        ensures { Some result ≡ guess.due_of self }
    {
        match self {
            GuessUnit::Guess => GUESS_FUTURE,
            GuessUnit::Early | GuessUnit::Late => GUESS_RESULT,
        }
    }

    /// The rank that its rule names.
    pub(crate) fn rank(self) -> u32
        ensures { Some result ≡ guess.home_rule_of self }
    {
        match self {
            GuessUnit::Guess => 1,
            GuessUnit::Early | GuessUnit::Late => 0,
        }
    }

    /// Adds the effects of its step on these values of its needs.
    pub(crate) fn step(
        self,
        values: &[u64],
        effects: &mut Effects<Unit, u64, u32>,
    ) -> Result<(), OutOfMemory>
        requires none { effects.old ≡ [] }
        requires values { length values.now ≡ length (guess.needs_of self) }
        ensures { OnOk result (effects.new ≡ guess.step_of self values.now) }
    {
        match self {
            GuessUnit::Guess => effects.push(Effect::Give(GUESS_FUTURE, 1)),
            GuessUnit::Early if values[0] != 0 => {
                effects.push(Effect::Spawn(Unit::Guessed(GuessUnit::Late)))
            }
            GuessUnit::Early | GuessUnit::Late => {
                effects.push(Effect::Put(GUESS_ENTRY, 9))?;
                effects.push(Effect::Give(GUESS_RESULT, 9))
            }
        }
    }
}
