//! Words of a command line, parsed with `clap`.
ghost use Rattle.std.specs.Prelude.{◌≡◌, IfOk, MatchOption, List, [], ℕ, None, codes, false, map, string_bytes, true};
ghost use Rattle.std.specs.List.{list_any};
ghost use Rattle.std.specs.Str.{bytes_eq};
ghost use Rattle.clap.specs.Words.{app_of, new_app, rule_of};
ghost use Rattle.command_line.specs.Parsing.{HasSettings, command_of, flag_rule, is_proper, option_rule, word_rule};
ghost use Rattle.command_line.specs.Requests.{big_form, run_form, serial_form};
ghost use Rattle.command_line.specs.Settings.{Form, read_settings};

use clap::error::ErrorKind;
use clap::{Arg, ArgAction, ArgMatches, Command};
use std::alloc::{AllocError, Global};

// An option with a value, `--name value` or `--name=value`, at most once.
fn option<'a>(alloc: Global, name: &'a str) -> Arg<'a>
    ensures rule { rule_of result ≡ option_rule name.entry.now }
    ensures local { result.global ≡ false }
{
    Arg::new(alloc, name).long(name).action(ArgAction::Set)
}

// A flag, `--name`, at most once.
fn flag<'a>(alloc: Global, name: &'a str) -> Arg<'a>
    ensures rule { rule_of result ≡ flag_rule name.entry.now }
    ensures local { result.global ≡ false }
{
    Arg::new(alloc, name).long(name).action(ArgAction::SetTrue)
}

// A positional argument.
fn word<'a>(alloc: Global, name: &'a str) -> Arg<'a>
    ensures rule { rule_of result ≡ word_rule name.entry.now }
    ensures local { result.global ≡ false }
{
    Arg::new(alloc, name).action(ArgAction::Set)
}

// A command for words without the program's name, without help and version.
fn bare<'a>(alloc: Global, name: &'a str) -> Command<'a>
    ensures { app_of result ≡ command_of name.entry.now (record { options = []; flags = []; word = None }) }
{
    Command::new(alloc, name)
        .no_binary_name(true)
        .disable_help_flag(true)
        .disable_version_flag(true)
}

/// The command `run`.
pub fn run_command<'a>(alloc: Global) -> Result<Command<'a>, AllocError>
    ensures { IfOk result (λ command. app_of command ≡ command_of (codes "run") run_form) }
{
    let command = bare(alloc, "run")
        .arg(option(alloc, "ranks"))?
        .arg(option(alloc, "workers"))?
        .arg(option(alloc, "map"))?;
    Ok(command)
}

/// The command `serial`.
pub fn serial_command<'a>(alloc: Global) -> Result<Command<'a>, AllocError>
    ensures { IfOk result (λ command. app_of command ≡ command_of (codes "serial") serial_form) }
{
    let command = bare(alloc, "serial")
        .arg(option(alloc, "ranks"))?
        .arg(option(alloc, "map"))?
        .arg(flag(alloc, "receipts"))?;
    Ok(command)
}

/// The command `big`.
pub fn big_command<'a>(alloc: Global) -> Result<Command<'a>, AllocError>
    ensures { IfOk result (λ command. app_of command ≡ command_of (codes "big") big_form) }
{
    let command = bare(alloc, "big")
        .arg(option(alloc, "ranks"))?
        .arg(option(alloc, "workers"))?
        .arg(option(alloc, "map"))?
        .arg(flag(alloc, "receipts"))?
        .arg(flag(alloc, "job"))?
        .arg(word(alloc, "number"))?;
    Ok(command)
}

// Whether one of the words is `--`.
fn has_end_of_options(words: &[String]) -> bool
    ensures { result ≡ list_any (λ word. bytes_eq (string_bytes word) (codes "--")) words.now }
{
    for word in words {
        if word.as_bytes() == b"--".as_slice() {
            return true;
        }
    }
    false
}

/// The matches of the words after a command's name. None exactly where the command doesn't take them.
pub fn matches_of<'a>(
    command: Command<'a>,
    words: &'a [String],
) -> Result<Option<ArgMatches<'a>>, AllocError>
    ensures { IfOk result (λ found. (name : List ℕ) (form : Form) →
        app_of command.entry ≡ command_of name form → is_proper form ≡ true →
        MatchOption found (read_settings form (map string_bytes words.entry.now) ≡ None)
        (HasSettings form (map string_bytes words.entry.now))) }
{
    if has_end_of_options(words) {
        return Ok(None);
    }
    match command.try_get_matches_from(words) {
        Ok(matches) => Ok(Some(matches)),
        Err(error) if error.kind() == ErrorKind::OutOfMemory => Err(AllocError),
        Err(_) => Ok(None),
    }
}
