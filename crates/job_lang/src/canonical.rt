//! The canonical text of a job.
ghost use Rattle.std.specs.Prelude.{◌≡◌, ◌++◌, ◌∷◌, [], codes, decimal, IfOk, OnOk};
ghost use Rattle.std.specs.Fmt.{signed_decimal};
ghost use Rattle.haar_node.specs.Func.{function_of};
ghost use Rattle.job_lang.specs.Canonical.{canonical_text, command_text, command_words, function_words, header_words};
ghost use Rattle.job_words.specs.Lines.{line_of, spaced};
ghost use Rattle.job_data.specs.Data.{data_of};
ghost use Rattle.job_lang.specs.Reading.{reading_of};
ghost use Rattle.tree_model.specs.Commands.Command.{Add, Mul, Project};

use haar_node::Func;
use itoa::Buffer;
use job_data::{Command, Job};
use std::alloc::Global;
use tree_key::{OutOfMemory, Text};

// Adds a space and a word.
fn add_word(text: &mut Text, word: &[u8]) -> Result<(), OutOfMemory>
    ensures { OnOk result (text.new ≡ text.old ++ 32 ∷ word.now) }
{
    text.add(b" ")?;
    text.add(word)
}

// Adds a space and a number with its sign.
fn add_number(text: &mut Text, number: i64) -> Result<(), OutOfMemory>
    ensures { OnOk result (text.new ≡ text.old ++ 32 ∷ signed_decimal number) }
{
    let mut buffer = Buffer::new();
    add_word(text, buffer.format(number).as_bytes())
}

// Adds a space and a number.
fn add_size(text: &mut Text, size: u32) -> Result<(), OutOfMemory>
    ensures { OnOk result (text.new ≡ text.old ++ 32 ∷ decimal size) }
{
    let mut buffer = Buffer::new();
    add_word(text, buffer.format(size).as_bytes())
}

// Adds the words of a function, each after a space.
fn add_function(text: &mut Text, function: &Func) -> Result<(), OutOfMemory>
    ensures { OnOk result (text.new ≡ text.old ++ spaced (function_words (function_of function.now))) }
{
    match *function {
        Func::Const(constant) => {
            add_word(text, b"const")?;
            add_number(text, constant)
        }
        Func::Ramp(start, slope) => {
            add_word(text, b"ramp")?;
            add_number(text, start)?;
            add_number(text, slope)
        }
        Func::Step(edge, before, after) => {
            add_word(text, b"step")?;
            add_size(text, edge)?;
            add_number(text, before)?;
            add_number(text, after)
        }
        Func::Box(start, end, value) => {
            add_word(text, b"box")?;
            add_size(text, start)?;
            add_size(text, end)?;
            add_number(text, value)
        }
        Func::Hash(seed, modulus) => {
            add_word(text, b"hash")?;
            add_size(text, seed)?;
            add_size(text, modulus)
        }
    }
}

// Adds `level N tol T`, each word after a space.
fn add_limits(text: &mut Text, level: u8, tolerance: u32) -> Result<(), OutOfMemory>
    ensures { OnOk result (text.new ≡ text.old ++ spaced (codes "level" ∷ decimal level ∷ codes "tol" ∷ decimal tolerance ∷ [])) }
{
    add_word(text, b"level")?;
    add_size(text, u32::from(level))?;
    add_word(text, b"tol")?;
    add_size(text, tolerance)
}

// Adds `A NAME`, each word after a space.
fn add_term(text: &mut Text, factor: i64, name: &[u8]) -> Result<(), OutOfMemory>
    ensures { OnOk result (text.new ≡ text.old ++ spaced (signed_decimal factor ∷ name.now ∷ [])) }
{
    add_number(text, factor)?;
    add_word(text, name)
}

// Adds a verb, and a name after a space.
fn add_named(text: &mut Text, verb: &[u8], name: &[u8]) -> Result<(), OutOfMemory>
    ensures { OnOk result (text.new ≡ text.old ++ line_of (verb.now ∷ name.now ∷ [])) }
{
    text.add(verb)?;
    add_word(text, name)
}

// Adds `project NAME FUNC level N tol T`.
fn add_projection(
    text: &mut Text,
    name: &[u8],
    function: &Func,
    level: u8,
    tolerance: u32,
) -> Result<(), OutOfMemory>
    ensures { OnOk result (text.new ≡ text.old ++ line_of (command_words
        (Project name.now (record { function = function_of function.now; level = level; tolerance = tolerance })))) }
{
    add_named(text, b"project", name)?;
    add_function(text, function)?;
    add_limits(text, level, tolerance)
}

// Adds `add NAME = A NAME + B NAME`, from the name and the two terms.
fn add_sum(
    text: &mut Text,
    name: &[u8],
    left: (i64, &[u8]),
    right: (i64, &[u8]),
) -> Result<(), OutOfMemory>
    ensures { OnOk result (text.new ≡ text.old ++ line_of (command_words
        (Add name.now left.entry.0 left.entry.1.now right.entry.0 right.entry.1.now))) }
{
    add_named(text, b"add", name)?;
    add_word(text, b"=")?;
    add_term(text, left.0, left.1)?;
    add_word(text, b"+")?;
    add_term(text, right.0, right.1)
}

// Adds `mul NAME = NAME * NAME`.
fn add_product(text: &mut Text, name: &[u8], left: &[u8], right: &[u8]) -> Result<(), OutOfMemory>
    ensures { OnOk result (text.new ≡ text.old ++ line_of (command_words (Mul name.now left.now right.now))) }
{
    add_named(text, b"mul", name)?;
    add_word(text, b"=")?;
    add_word(text, left)?;
    add_word(text, b"*")?;
    add_word(text, right)
}

// Adds the words of a command, with single spaces between them.
fn add_words(text: &mut Text, command: &Command) -> Result<(), OutOfMemory>
    ensures { OnOk result (text.new ≡ text.old ++ line_of (command_words (data_of command.now))) }
{
    match command {
        Command::Project {
            name,
            function,
            level,
            tolerance,
        } => add_projection(text, name.bytes(), function, *level, *tolerance),
        Command::Refine { name, level } => {
            add_named(text, b"refine", name.bytes())?;
            add_size(text, u32::from(*level))
        }
        Command::Coarsen { name } => add_named(text, b"coarsen", name.bytes()),
        Command::Compress { name } => add_named(text, b"compress", name.bytes()),
        Command::Reconstruct { name } => add_named(text, b"reconstruct", name.bytes()),
        Command::Add {
            name,
            left_factor,
            left,
            right_factor,
            right,
        } => {
            let left = (*left_factor, left.bytes());
            let right = (*right_factor, right.bytes());
            add_sum(text, name.bytes(), left, right)
        }
        Command::Mul { name, left, right } => {
            add_product(text, name.bytes(), left.bytes(), right.bytes())
        }
        Command::Inner { left, right } => {
            add_named(text, b"inner", left.bytes())?;
            add_word(text, right.bytes())
        }
        Command::Print { name } => add_named(text, b"print", name.bytes()),
        Command::Size { name } => add_named(text, b"size", name.bytes()),
        Command::Fence => text.add(b"fence"),
    }
}

// Adds the line of a command.
fn add_command(text: &mut Text, command: &Command) -> Result<(), OutOfMemory>
    ensures { OnOk result (text.new ≡ text.old ++ command_text (data_of command.now)) }
{
    add_words(text, command)?;
    text.add(b"\n")
}

// Adds the words of the header, with single spaces between them.
fn add_header_words(text: &mut Text, depth: u8) -> Result<(), OutOfMemory>
    ensures { OnOk result (text.new ≡ text.old ++ line_of (header_words depth)) }
{
    add_named(text, b"job", b"1")?;
    add_word(text, b"depth")?;
    add_size(text, u32::from(depth))
}

// Adds the header's line.
fn add_header(text: &mut Text, depth: u8) -> Result<(), OutOfMemory>
    ensures { OnOk result (text.new ≡ text.old ++ (line_of (header_words depth) ++ codes "\n")) }
{
    add_header_words(text, depth)?;
    text.add(b"\n")
}

/// The canonical text of a job: the header and a line for each command, with single spaces, numbers without leading zeros
/// and without `-0`, and a line feed after each line. [`parse`](crate::parse) reads it as the same job.
pub fn print(alloc: Global, job: &Job) -> Result<Vec<u8>, OutOfMemory>
    ensures text { IfOk result (λ bytes. bytes.items ≡ canonical_text job.now) }
    ensures reads_back { IfOk result (λ bytes. reading_of bytes.items ≡ Ok job.now) }
{
    let mut text = Text::new(alloc);
    add_header(&mut text, job.depth())?;
    for command in job.commands() {
        add_command(&mut text, command)?;
    }
    Ok(text.into_bytes())
}
