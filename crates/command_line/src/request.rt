//! What the words of a command line ask for.
ghost use Rattle.std.specs.Prelude.{◌≡◌, IfOk, IfSome, List, map, option_and_then, option_map, string_bytes};
ghost use Rattle.std.specs.Str.{bytes_eq};
ghost use Rattle.command_line.specs.Parsing.{HasSettings};
ghost use Rattle.command_line.specs.Requests.{HasRanks, HasWorkers, alone, big_form, big_request, command_request, has_run_values, request_of, run_form, run_request, serial_form, serial_request};
ghost use Rattle.command_line.specs.Settings.{Word, read_settings};
ghost use Rattle.command_line.specs.Values.{map_of, max_number, number_in, number_of, ranks_of, workers_of};

use crate::parsing::{big_command, matches_of, run_command, serial_command};
use clap::ArgMatches;
use job_words::size_of_digits;
use owner_map::OwnerMap;
use std::alloc::{AllocError, Global};

/// What the words of a command line ask for.
#[derive(Clone, Copy, Debug, PartialEq, Eq)]
pub enum Request {
    /// `run`: the text of the job that the source gives, done in parallel.
    Run {
        /// On how many ranks, 1 to 16.
        ranks: u32,
        /// How many workers each rank has beside its main, at most 4.
        workers: u32,
        /// Which rank owns a key.
        map: OwnerMap,
    },

    /// `serial`: the text of that job, done serially.
    Serial {
        /// Over how many ranks the keys are distributed, 1 to 16.
        ranks: u32,
        /// Which rank owns a key.
        map: OwnerMap,
        /// Whether the text has receipts.
        receipts: bool,
    },

    /// `check`: how many commands and trees that job has.
    Check,

    /// `big` with `--job`: the text of the generated job of a number, whatever the options of a run are.
    BigJob {
        /// The number.
        number: u32,
    },
}

// The most digits of a number.
const MAX_DIGITS: usize = 10;

// The number from `least` to `most` that 1 to 10 decimal digits write. None exactly where the text isn't that.
fn number_in(least: u32, most: u32, text: &str) -> Option<u32>
    ensures { result ≡ number_in least most text.now }
{
    if text.len() > MAX_DIGITS {
        return None;
    }
    let number = size_of_digits(text.as_bytes())?;
    if u64::from(least) <= number && number <= u64::from(most) {
        Some(number as u32)
    } else {
        None
    }
}

// The number of ranks that an option says.
fn ranks_of(text: Option<&str>) -> Option<u32>
    ensures { result ≡ ranks_of (option_map (λ t. t.now) text.entry) }
{
    match text {
        None => Some(1),
        Some(text) => number_in(1, 16, text),
    }
}

// The number of workers that an option says.
fn workers_of(text: Option<&str>) -> Option<u32>
    ensures { result ≡ workers_of (option_map (λ t. t.now) text.entry) }
{
    match text {
        None => Some(0),
        Some(text) => number_in(0, 4, text),
    }
}

// The owner map that an option says.
fn map_of(text: Option<&str>) -> Option<OwnerMap>
    ensures { result ≡ map_of (option_map (λ t. t.now) text.entry) }
{
    match text {
        None => Some(OwnerMap::Block),
        Some(text) => OwnerMap::of_word(text.as_bytes()),
    }
}

// The number of a generated job.
fn number_of(text: Option<&str>) -> Option<u32>
    ensures { result ≡ number_of (option_map (λ t. t.now) text.entry) }
{
    number_in(0, u32::MAX, text?)
}

// What the options of `run` ask for.
fn run_request(matches: &ArgMatches<'_>) -> Option<Request>
    ensures { (words : List Word) → (s : HasSettings run_form words matches.now) → result ≡ run_request s.settings }
{
    let ranks = ranks_of(matches.get_str("ranks"))?;
    let workers = workers_of(matches.get_str("workers"))?;
    let map = map_of(matches.get_str("map"))?;
    Some(Request::Run {
        ranks,
        workers,
        map,
    })
}

// What the options of `serial` ask for.
fn serial_request(matches: &ArgMatches<'_>) -> Option<Request>
    ensures { (words : List Word) → (s : HasSettings serial_form words matches.now) → result ≡ serial_request s.settings }
{
    let ranks = ranks_of(matches.get_str("ranks"))?;
    let map = map_of(matches.get_str("map"))?;
    let receipts = matches.get_flag("receipts");
    Some(Request::Serial {
        ranks,
        map,
        receipts,
    })
}

// Whether the options of a run have values that they may have, where they are given to `big`.
fn has_run_values(matches: &ArgMatches<'_>) -> bool
    ensures { (words : List Word) → (s : HasSettings big_form words matches.now) → result ≡ has_run_values s.settings }
{
    let ranks = ranks_of(matches.get_str("ranks"));
    let workers = workers_of(matches.get_str("workers"));
    let map = map_of(matches.get_str("map"));
    ranks.is_some() && workers.is_some() && map.is_some()
}

// What the options of `big` ask for.
fn big_request(matches: &ArgMatches<'_>) -> Option<Request>
    ensures { (words : List Word) → (s : HasSettings big_form words matches.now) → result ≡ big_request s.settings }
{
    if !matches.get_flag("job") {
        return None;
    }
    if !has_run_values(matches) {
        return None;
    }
    let number = number_of(matches.get_str("number"))?;
    Some(Request::BigJob { number })
}

// What the words after `run` ask for.
fn read_run(alloc: Global, words: &[String]) -> Result<Option<Request>, AllocError>
    ensures { IfOk result (λ request. request ≡ option_and_then run_request (read_settings run_form (map string_bytes words.now))) }
{
    match matches_of(run_command(alloc)?, words)? {
        Some(matches) => Ok(run_request(&matches)),
        None => Ok(None),
    }
}

// What the words after `serial` ask for.
fn read_serial(alloc: Global, words: &[String]) -> Result<Option<Request>, AllocError>
    ensures { IfOk result (λ request. request ≡ option_and_then serial_request (read_settings serial_form (map string_bytes words.now))) }
{
    match matches_of(serial_command(alloc)?, words)? {
        Some(matches) => Ok(serial_request(&matches)),
        None => Ok(None),
    }
}

// What the words after `big` ask for.
fn read_big(alloc: Global, words: &[String]) -> Result<Option<Request>, AllocError>
    ensures { IfOk result (λ request. request ≡ option_and_then big_request (read_settings big_form (map string_bytes words.now))) }
{
    match matches_of(big_command(alloc)?, words)? {
        Some(matches) => Ok(big_request(&matches)),
        None => Ok(None),
    }
}

// A request whose command takes nothing.
fn alone(request: Request, words: &[String]) -> Option<Request>
    ensures { result ≡ alone request (map string_bytes words.now) }
{
    if words.is_empty() {
        Some(request)
    } else {
        None
    }
}

// Whether a word is this one.
fn is_word(word: &str, text: &str) -> bool
    ensures { result ≡ bytes_eq word.now text.now }
{
    word == text
}

// The request of a command, and the words after it.
fn command_request(
    alloc: Global,
    command: &str,
    words: &[String],
) -> Result<Option<Request>, AllocError>
    ensures { IfOk result (λ request. request ≡ command_request command.now (map string_bytes words.now)) }
{
    if is_word(command, "run") {
        read_run(alloc, words)
    } else if is_word(command, "serial") {
        read_serial(alloc, words)
    } else if is_word(command, "check") {
        Ok(alone(Request::Check, words))
    } else if is_word(command, "big") {
        read_big(alloc, words)
    } else {
        Ok(None)
    }
}

/// What the words after the program's name ask for.
///
/// None exactly where they are in none of the forms `run [--ranks N] [--workers N] [--map M]`, `serial [--ranks N] [--map M]
/// [--receipts]`, `check` and `big N [--ranks N] [--workers N] [--map M] [--receipts] --job`. Options come in any order, each
/// at most once, as `--name value` or `--name=value`; a flag has no value. N of `big` comes before, between or after its
/// options. A number is 1 to 10 decimal digits: N of `--ranks` is 1 to 16, N of `--workers` is at most 4, and N of `big` is at
/// most 4,294,967,295. M is `block`, `spread` or `level`. Where they aren't given, there are 1 rank and no workers, and the
/// map is `block`. `OutOfMemory` where there is no memory left.
pub fn request_of(alloc: Global, words: &[String]) -> Result<Option<Request>, AllocError>
    ensures request { IfOk result (λ request. request ≡ request_of (map string_bytes words.now)) }
    ensures ranks { IfOk result (λ request. IfSome request HasRanks) }
    ensures workers { IfOk result (λ request. IfSome request HasWorkers) }
{
    match words {
        [command, rest @ ..] => command_request(alloc, command.as_str(), rest),
        [] => Ok(None),
    }
}
