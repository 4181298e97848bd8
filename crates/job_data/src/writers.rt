//! The last writer of each tree, as places of a list of commands.
ghost use Rattle.std.specs.Prelude.{◌≡◌, ◌<◌, ◌≤◌, All, length, map, position};
ghost use Rattle.std.specs.Option.{option_map};
ghost use Rattle.tree_model.specs.Signatures.{writes, written_form};
ghost use Rattle.job_data.specs.Data.{data_of, form_of};
ghost use Rattle.job_data.specs.Writers.{command_at, form_at, version_at};

use crate::command::Command;
use crate::tree_form::TreeForm;

// Whether the command at a place writes a tree of this name.
fn writes_at(commands: &[Command], place: usize, name: &[u8]) -> bool
    ensures { result ≡ writes name.now (command_at (map data_of commands.now) place) }
{
    match commands.get(place) {
        Some(command) => command.writes(name),
        None => false,
    }
}

// The form in which the command at a place writes its tree.
fn written_form_at(commands: &[Command], place: usize) -> Option<TreeForm>
    ensures { option_map form_of result ≡ written_form (command_at (map data_of commands.now) place) }
{
    match commands.get(place) {
        Some(command) => command.written_form(),
        None => None,
    }
}

/// The form in which the first of these places that writes a name writes it. None where none does.
pub fn form_at(commands: &[Command], places: &[usize], name: &[u8]) -> Option<TreeForm>
    ensures { option_map form_of result ≡ form_at (map data_of commands.now) places.now name.now }
{
    for place in places {
        if writes_at(commands, *place, name) {
            return written_form_at(commands, *place);
        }
    }
    None
}

/// The number of the command at the first of these places that writes a name, or 0 where none does.
pub fn version_at(commands: &[Command], places: &[usize], name: &[u8]) -> usize
    requires { All (λ place. place < length commands.now) places.now }
    ensures value { result ≡ version_at (map data_of commands.now) places.now name.now }
    ensures most { result ≤ length commands.now }
{
    for place in places {
        if writes_at(commands, *place, name) {
            return *place + 1;
        }
    }
    0
}

/// The index of the first of these places that writes a name.
pub fn writer_of(commands: &[Command], places: &[usize], name: &[u8]) -> Option<usize>
    ensures { result ≡ position
        (λ place. writes name.now (command_at (map data_of commands.now) place)) places.now }
{
    places
        .iter()
        .position(|place| writes_at(commands, *place, name))
}
