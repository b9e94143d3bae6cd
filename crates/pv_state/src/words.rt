//! The words of the command line (C17 5.1.2.2.1).
ghost use Rattle.std.specs.Prelude.{◌≡◌, ◌≤◌, IfOk, IfSome, is_some};
ghost use Rattle.pv_typed.specs.Known.{Each};
ghost use Rattle.pv_serve.specs.Words.{texts};
ghost use Rattle.pv_serve.specs.ReadWords.{AreBounded, options_read, IsBound};
ghost use Rattle.pv_state.specs.Words as specified;
ghost use Rattle.pv_state.specs.ReadWords.{IsAsked, IsFitting, IsWithin, ArePlaces, places_read};

use pv_serve::{DEFAULT_TURNS, Mode, NoMemory, Options, no_options, number_to, with_option};
use std::alloc::Global;

// The most places that may be asked for.
const MOST_PLACES: usize = 16;

/// Where a run is looked at.
#[derive(Clone, Copy)]
pub enum Place {
    /// At its end.
    End,
    /// Where this turn is due.
    Turn(u64),
}

/// What is asked for: a source is run, and looked at.
#[derive(Clone, Copy)]
pub struct Asked<'a> {
    /// The name of the source's file, of at least one byte.
    pub file: &'a str,
    /// The name of the file of its script of addresses, of at least one byte, if there is one.
    pub script: Option<&'a str>,
    /// The most turns of its run.
    pub bound: u64,
    /// Whether a pointer to what has ended is indeterminate (C17 6.2.4p2).
    pub zap: bool,
    /// The sides of pairs: `-`, or a letter `l` or `h` for each.
    pub sides: Option<&'a str>,
    /// Whether the objects of all bodies are wanted, and those with static storage.
    pub all: bool,
    /// Where: each of these is a place; none stands for the end.
    pub places: &'a [String],
}

/// What the words ask for, if they do: a file, behind it the options `--script F`, `--turns N`, `--zap V`, `--sides S` and `--all`, each at most once, in
/// any order, and behind these at most 16 places: `end`, or a turn from 1 to N.
pub fn job_asked(words: &[String]) -> Option<Asked<'_>>
    ensures asked { IsAsked result (specified.job (texts words.now)) }
    ensures fitting { IfSome result IsFitting }
{
    match words {
        [file, rest @ ..] => {
            let name = file.as_str();
            if name.is_empty() {
                return None;
            }
            asked_by(name, no_options(), false, rest)
        }
        _ => None,
    }
}

// What a file and the words behind it ask for, where these options were read.
#[cycle(asking)]
fn asked_by<'a>(
    file: &'a str,
    options: Options<'a>,
    all: bool,
    words: &'a [String],
) -> Option<Asked<'a>>
    requires { AreBounded options.turns }
    ensures asked { IsAsked result (specified.asked file.now (options_read options.entry) all (texts words.now)) }
    ensures fitting { IfSome result IsFitting }
{
    match words {
        [] => job_of(file, options, all, words),
        [word, rest @ ..] => {
            let name = word.as_str();
            if !is_option(name) {
                return job_of(file, options, all, words);
            }
            if name == "--all" {
                if all {
                    return None;
                }
                return asked_by(file, options, true, rest);
            }
            with_value(file, options, all, rest, name)
        }
    }
}

// The same behind the word of an option whose value stands first.
#[cycle(asking)]
fn with_value<'a>(
    file: &'a str,
    options: Options<'a>,
    all: bool,
    words: &'a [String],
    name: &str,
) -> Option<Asked<'a>>
    requires { AreBounded options.turns }
    ensures asked { IsAsked result (specified.valued file.now (options_read options.entry) all (texts words.now) name.now) }
    ensures fitting { IfSome result IsFitting }
{
    match words {
        [value, rest @ ..] => {
            let more = with_option(Mode::Settle, options, name, value.as_str())?;
            asked_by(file, more, all, rest)
        }
        _ => None,
    }
}

// Whether a word is that of an option: it begins with `-`.
fn is_option(word: &str) -> bool
    ensures { result ≡ specified.is_option word.now }
{
    match word.as_bytes() {
        [first, ..] => *first == b'-',
        _ => false,
    }
}

// The job of these options, where all words behind them are places.
fn job_of<'a>(
    file: &'a str,
    options: Options<'a>,
    all: bool,
    places: &'a [String],
) -> Option<Asked<'a>>
    requires { AreBounded options.turns }
    ensures asked { IsAsked result (specified.job_of file.now (options_read options.entry) all (texts places.now)) }
    ensures fitting { IfSome result IsFitting }
{
    let bound = options.turns.unwrap_or(DEFAULT_TURNS);
    if MOST_PLACES < places.len() {
        return None;
    }
    if !are_places(places, bound) {
        return None;
    }
    Some(Asked {
        file,
        script: options.script,
        bound,
        zap: options.zap.unwrap_or(true),
        sides: options.sides,
        all,
        places,
    })
}

// Whether each of these is a place in a run with this bound.
fn are_places(words: &[String], bound: u64) -> bool
    requires { bound ≤ 100000000 }
    ensures { result ≡ is_some (specified.places_in bound (texts words.now)) }
{
    match words {
        [] => true,
        [word, rest @ ..] => match place_in(word.as_str(), bound) {
            Some(_) => are_places(rest, bound),
            None => false,
        },
    }
}

// The place that a word is, if it is one.
fn place_in(word: &str, bound: u64) -> Option<Place>
    requires { bound ≤ 100000000 }
    ensures place { result ≡ specified.place_in bound word.now }
    ensures within { IfSome result (IsWithin bound) }
{
    if word == "end" {
        return Some(Place::End);
    }
    let Some(turn) = number_to(word, bound) else {
        return None;
    };
    Some(Place::Turn(turn))
}

/// The places that are asked for. The only error is want of memory.
pub fn places_of(alloc: Global, words: &[String], bound: u64) -> Result<Vec<Place>, NoMemory>
    requires bound { IsBound bound }
    requires places { ArePlaces bound (texts words.now) }
    ensures read { IfOk result (λ v. v.items ≡ places_read bound (texts words.now)) }
    ensures within { IfOk result (λ v. Each (IsWithin bound) v.items) }
{
    let mut places = Vec::new(alloc);
    if words.is_empty() {
        places.push(Place::End)?;
        return Ok(places);
    }
    for word in words {
        match place_in(word.as_str(), bound) {
            Some(place) => places.push(place)?,
            None => {}
        }
    }
    Ok(places)
}
