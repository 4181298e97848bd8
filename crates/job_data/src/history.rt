//! What the check of one more command needs of the commands before it.
ghost use Rattle.std.specs.Prelude.{◌≡◌, ◌+◌, ◌<◌, ◌≤◌, length, ◌&&◌, ◌||◌, [], ◌∷◌, ◌++◌, Ok, map, nat_lt, not, take, true, if◌then◌else◌};
ghost use Rattle.std.specs.List.{list_all};
ghost use Rattle.std.specs.Option.{option_map};
ghost use Rattle.tree_model.specs.Commands.{Command as CommandData};
ghost use Rattle.job_data.specs.declared.fault_kind.FaultKind.TheVariants.{BeyondLimits, FarFromFence, SizeBeforeFence, UnknownTree, WrongForm};
ghost use Rattle.job_data.specs.Checks.{brings, form_behind, has_fence_for, has_room, has_room_for, is_accepted, is_fenced, is_written, max_commands_before_fence, max_prints, may_follow, trees_behind};
ghost use Rattle.job_data.specs.Data.{data_of, form_of};
ghost use Rattle.job_data.specs.Found.{forms_in};
ghost use Rattle.job_data.specs.CheckedCommands.{checked, checked_command, unless_fault};
ghost use Rattle.job_data.specs.Reads.{names_of};
ghost use Rattle.job_data.specs.SignatureData.{signature_data};
ghost use Rattle.job_data.specs.Versions.{step_for, step_of, version_behind};

use crate::command::Command;
use crate::fault_kind::FaultKind;
use crate::found::Found;
use crate::reads::Reads;
use crate::signature::Signature;
use crate::sources::Sources;
use crate::step::Step;
use crate::tree_form::TreeForm;
use crate::writers::{form_at, version_at, writer_of};

const MAX_COMMANDS: usize = 512;

const MAX_TREES: usize = 16;

const MAX_PRINTS: u32 = 64;

const MAX_COMMANDS_BEFORE_FENCE: u32 = 32;

/// What the checks of one more command need of the commands before it: for each tree the place of its last writer, and
/// how many `print`s there are, and commands since the last fence.
#[derive(Clone, Copy)]
pub struct History {
    places: [usize; 16],
    trees: usize,
    prints: u32,
    since_fence: u32,
    fences: u32,
}

// The number of `print`s with one command more, which may be one.
fn prints_with(prints: u32, is_print: bool) -> u32
    requires { (not is_print || nat_lt prints max_prints) ≡ true }
    ensures { result ≡ prints + (if is_print then 1 else 0) }
{
    if is_print { prints + 1 } else { prints }
}

// The number of fences with one command more, which may be one.
fn fences_with(fences: u32, is_fence: bool) -> u32
    requires { fences < 512 }
    ensures { result ≡ fences + (if is_fence then 1 else 0) }
{
    if is_fence { fences + 1 } else { fences }
}

// The number of commands since the last fence, with one command more, which may be one.
fn since_fence_with(since_fence: u32, is_fence: bool) -> u32
    requires { (is_fence || nat_lt since_fence max_commands_before_fence) ≡ true }
    ensures { result ≡ (if is_fence then 0 else since_fence + 1) }
{
    if is_fence { 0 } else { since_fence + 1 }
}

// Whether a command is near enough to the last fence, which may be it.
fn is_near(since_fence: u32, is_fence: bool) -> bool
    ensures { result ≡ (is_fence || nat_lt since_fence max_commands_before_fence) }
{
    is_fence || since_fence < MAX_COMMANDS_BEFORE_FENCE
}

// The lowest kind of fault, by the checks that hold.
fn lowest_fault(
    is_within: bool,
    has_room: bool,
    are_there: bool,
    suit: bool,
    is_near: bool,
    has_fence: bool,
) -> Option<FaultKind>
    ensures { (c : CommandData) → unless_fault result c
        ≡ checked BeyondLimits (is_within && has_room) (checked UnknownTree are_there (checked WrongForm suit (checked FarFromFence is_near (checked SizeBeforeFence has_fence (Ok c))))) }
{
    if !is_within || !has_room {
        Some(FaultKind::BeyondLimits)
    } else if !are_there {
        Some(FaultKind::UnknownTree)
    } else if !suit {
        Some(FaultKind::WrongForm)
    } else if !is_near {
        Some(FaultKind::FarFromFence)
    } else if !has_fence {
        Some(FaultKind::SizeBeforeFence)
    } else {
        None
    }
}

impl History {
    ghost use Rattle.job_data.specs.Recalls.{Recalls};
    ghost use Rattle.job_data.specs.Writers.{AreLastWriters};

    /// Of no commands.
    pub fn new() -> History
        ensures { Recalls [] result }
    {
        History {
            places: [0; 16],
            trees: 0,
            prints: 0,
            since_fence: 0,
            fences: 0,
        }
    }

    // The form in which the last of the commands that writes a name leaves its tree.
    fn form_behind(&self, before: &[Command], name: &[u8]) -> Option<TreeForm>
        requires { Recalls (map data_of before.now) self.now }
        ensures { option_map form_of result ≡ form_behind (map data_of before.now) name.now }
    {
        form_at(before, &self.places[..self.trees], name)
    }

    // Whether one of the commands writes a tree of this name.
    fn is_written(&self, before: &[Command], name: &[u8]) -> bool
        requires { Recalls (map data_of before.now) self.now }
        ensures { result ≡ is_written (map data_of before.now) name.now }
    {
        self.form_behind(before, name).is_some()
    }

    // The forms of the trees of these names.
    fn found(&self, before: &[Command], reads: &Reads) -> Found
        requires { Recalls (map data_of before.now) self.now }
        ensures { forms_in result ≡ map (form_behind (map data_of before.now)) (names_of reads.now) }
    {
        match *reads {
            Reads::Nothing => Found::Nothing,
            Reads::One(name) => Found::One(self.form_behind(before, name.bytes())),
            Reads::Two(left, right) => Found::Two(
                self.form_behind(before, left.bytes()),
                self.form_behind(before, right.bytes()),
            ),
        }
    }

    // Whether a tree is written that none of the commands writes.
    fn brings(&self, before: &[Command], signature: &Signature) -> bool
        requires { Recalls (map data_of before.now) self.now }
        ensures { result ≡ brings (map data_of before.now) (signature_data signature.now) }
    {
        match signature.writes {
            Some(target) => !self.is_written(before, target.name.bytes()),
            None => false,
        }
    }

    // Whether the job has room for one more command.
    fn has_room_for(&self, before: &[Command], signature: &Signature) -> bool
        requires { Recalls (map data_of before.now) self.now }
        ensures { result ≡ has_room_for (map data_of before.now) (signature_data signature.now) }
    {
        before.len() < MAX_COMMANDS
            && (!self.brings(before, signature) || self.trees < MAX_TREES)
            && (!signature.prints || self.prints < MAX_PRINTS)
    }

    // The number of the last of the commands that writes a name, or 0.
    fn writer_number(&self, before: &[Command], name: &[u8]) -> usize
        requires { Recalls (map data_of before.now) self.now }
        ensures value { result ≡ version_behind (map data_of before.now) name.now }
        ensures most { result ≤ length before.now }
    {
        version_at(before, &self.places[..self.trees], name)
    }

    // Whether a fence comes after the last of the commands that writes a name.
    fn is_fenced(&self, before: &[Command], name: &[u8]) -> bool
        requires { Recalls (map data_of before.now) self.now }
        ensures { result ≡ is_fenced (map data_of before.now) name.now }
    {
        let last_fence = before.len() - self.since_fence as usize;
        self.writer_number(before, name) < last_fence
    }

    // Whether a fence comes after the commands that last wrote the trees of these names.
    fn are_fenced(&self, before: &[Command], reads: &Reads) -> bool
        requires { Recalls (map data_of before.now) self.now }
        ensures { result ≡ list_all (is_fenced (map data_of before.now)) (names_of reads.now) }
    {
        match *reads {
            Reads::Nothing => true,
            Reads::One(name) => self.is_fenced(before, name.bytes()),
            Reads::Two(left, right) => {
                self.is_fenced(before, left.bytes()) && self.is_fenced(before, right.bytes())
            }
        }
    }

    // Whether a fence comes after the commands that last wrote the trees that are read, if one is needed.
    fn has_fence_for(&self, before: &[Command], signature: &Signature) -> bool
        requires { Recalls (map data_of before.now) self.now }
        ensures { result ≡ has_fence_for (map data_of before.now) (signature_data signature.now) }
    {
        !signature.needs_fence || self.are_fenced(before, &signature.reads)
    }

    /// The lowest kind of fault that a command has after the commands. None where it has none.
    pub fn fault_of(&self, depth: u8, before: &[Command], command: &Command) -> Option<FaultKind>
        requires { Recalls (map data_of before.now) self.now }
        ensures { unless_fault result (data_of command.now)
            ≡ checked_command depth (map data_of before.now) (data_of command.now) }
    {
        let signature = command.signature();
        let is_within = signature.numbers.are_within(depth);
        let has_room = self.has_room_for(before, &signature);
        let found = self.found(before, &signature.reads);
        let are_there = found.are_there();
        let suit = found.suit(signature.needs);
        let is_near = is_near(self.since_fence, signature.fences);
        let has_fence = self.has_fence_for(before, &signature);
        lowest_fault(is_within, has_room, are_there, suit, is_near, has_fence)
    }

    /// Whether a command is within its limits at a depth, and may come after the commands.
    pub fn is_accepted(&self, depth: u8, before: &[Command], command: &Command) -> bool
        requires { Recalls (map data_of before.now) self.now }
        ensures { result ≡ is_accepted depth (map data_of before.now) (data_of command.now) }
    {
        self.fault_of(depth, before, command).is_none()
    }

    // The version that a name has after the commands, or 0.
    fn version_behind(&self, before: &[Command], name: &[u8]) -> u32
        requires recalls { Recalls (map data_of before.now) self.now }
        requires few { length before.now < 512 }
        ensures { result ≡ version_behind (map data_of before.now) name.now }
    {
        self.writer_number(before, name) as u32
    }

    // What a command with this signature reads and writes after the commands, which are fewer than 512.
    fn step_for(&self, before: &[Command], signature: &Signature) -> Step
        requires recalls { Recalls (map data_of before.now) self.now }
        requires few { length before.now < 512 }
        ensures { result ≡ step_for (map data_of before.now) (signature_data signature.now) }
    {
        let reads = match signature.reads {
            Reads::Nothing => Sources::Nothing,
            Reads::One(name) => Sources::One(self.version_behind(before, name.bytes())),
            Reads::Two(left, right) => Sources::Two(
                self.version_behind(before, left.bytes()),
                self.version_behind(before, right.bytes()),
            ),
        };
        let number = before.len() as u32 + 1;
        Step {
            reads,
            writes: signature.writes.map(|_| number),
            fence: self.fences + 1,
        }
    }

    /// What a command reads and writes after the commands, which are fewer than 512.
    pub fn step_of(&self, before: &[Command], command: &Command) -> Step
        requires recalls { Recalls (map data_of before.now) self.now }
        requires few { length before.now < 512 }
        ensures { result ≡ step_of (map data_of before.now) (data_of command.now) }
    {
        let signature = command.signature();
        self.step_for(before, &signature)
    }

    // Takes note of the writer of a tree, which comes after the commands.
    fn add_writer(&mut self, before: &[Command], command: &Command)
        requires recalls { Recalls (map data_of before.now) self.old }
        requires room { has_room (map data_of before.now) (data_of command.now) ≡ true }
        ensures writers { AreLastWriters (map data_of before.now ++ data_of command.now ∷ [])
            (take self.new.trees self.new.places) }
        ensures within { self.new.trees ≤ 16 }
        ensures prints { self.new.prints ≡ self.old.prints }
        ensures since_fence { self.new.since_fence ≡ self.old.since_fence }
        ensures fences { self.new.fences ≡ self.old.fences }
    {
        let Some(name) = command.written_name() else {
            return;
        };
        let trees = self.trees;
        let known = writer_of(before, &self.places[..trees], name.bytes());
        match known {
            Some(at) => self.places[at] = before.len(),
            None => {
                self.places[trees] = before.len();
                self.trees = trees + 1;
            }
        }
    }

    /// The history with one command more, which may come after the others.
    pub fn add(&mut self, before: &[Command], command: &Command)
        requires recalls { Recalls (map data_of before.now) self.old }
        requires follows { may_follow (map data_of before.now) (data_of command.now) ≡ true }
        ensures { Recalls (map data_of before.now ++ data_of command.now ∷ []) self.new }
    {
        self.add_writer(before, command);
        let signature = command.signature();
        self.prints = prints_with(self.prints, signature.prints);
        self.since_fence = since_fence_with(self.since_fence, signature.fences);
        self.fences = fences_with(self.fences, signature.fences);
    }

    /// How many trees the commands write.
    pub fn trees(&self, before: &[Command]) -> u32
        requires { Recalls (map data_of before.now) self.now }
        ensures { result ≡ trees_behind [] (map data_of before.now) }
    {
        self.trees as u32
    }
}
