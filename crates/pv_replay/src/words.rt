//! The words of the command line (C17 5.1.2.2.1).
ghost use Rattle.std.specs.Prelude.{◌≡◌, IfSome};
ghost use Rattle.pv_serve.specs.Words.{texts};
ghost use Rattle.pv_serve.specs.ReadWords.{AreBounded};
ghost use Rattle.pv_replay.specs.Words as specified;
ghost use Rattle.pv_replay.specs.ReadWords as read_words;
ghost use Rattle.pv_replay.specs.ReadWords.{IsAsked, IsBounded, AreOptions};

use pv_serve::{DEFAULT_TURNS, MOST_TURNS, number_to};

/// What is asked for.
#[derive(Clone, Copy)]
pub enum Asked<'a> {
    /// The journal of a run is to be written.
    Write(RunAsked<'a>),
    /// The journal in this file is to be checked.
    Check(&'a str),
}

/// A run of the source in a file.
#[derive(Clone, Copy)]
pub struct RunAsked<'a> {
    /// The name of the file, of at least one byte.
    pub file: &'a str,
    /// The name of the file of its script of addresses, of at least one byte, if there is one.
    pub script: Option<&'a str>,
    /// The most turns that it may take, from 1 to 100000000.
    pub turns: u64,
}

// What the options say, as far as they are read.
#[derive(Clone, Copy)]
struct Options<'a> {
    script: Option<&'a str>,
    turns: Option<u64>,
}

/// What the words ask for, if they do: `write FILE` with the options `--script F` and `--turns N`, each at most once, in any order, or
/// `check FILE`.
pub(crate) fn job_asked(words: &[String]) -> Option<Asked<'_>>
    ensures words { IsAsked result (specified.job (texts words.now)) }
    ensures turns { IfSome result IsBounded }
{
    match words {
        [mode, file, rest @ ..] => {
            if file.as_str().is_empty() {
                None
            } else {
                asked_by(mode.as_str(), file.as_str(), rest)
            }
        }
        _ => None,
    }
}

// What a mode asks of a file, with these words behind it.
fn asked_by<'a>(mode: &str, file: &'a str, rest: &'a [String]) -> Option<Asked<'a>>
    ensures words { IsAsked result (specified.job_of_mode mode.now file.now (texts rest.now)) }
    ensures turns { IfSome result IsBounded }
{
    match mode {
        "write" => write_of(file, rest),
        "check" => check_of(file, rest),
        _ => None,
    }
}

// The journal of a run of a file, with these options.
fn write_of<'a>(file: &'a str, rest: &'a [String]) -> Option<Asked<'a>>
    ensures words { IsAsked result (specified.write_of file.now (texts rest.now)) }
    ensures turns { IfSome result IsBounded }
{
    let options = all_options(no_options(), rest)?;
    Some(Asked::Write(RunAsked {
        file,
        script: options.script,
        turns: options.turns.unwrap_or(DEFAULT_TURNS),
    }))
}

// The check of a journal has no options.
fn check_of<'a>(file: &'a str, rest: &[String]) -> Option<Asked<'a>>
    ensures words { IsAsked result (specified.check_of file.now (texts rest.now)) }
    ensures turns { IfSome result IsBounded }
{
    match rest {
        [] => Some(Asked::Check(file)),
        _ => None,
    }
}

// No option was read yet.
fn no_options<'a>() -> Options<'a>
    ensures said { read_words.options_read result ≡ specified.no_options }
    ensures turns { AreBounded result.turns }
{
    Options {
        script: None,
        turns: None,
    }
}

// What the options say, behind those that were read: pairs of a word and its value.
fn all_options<'a>(given: Options<'a>, words: &'a [String]) -> Option<Options<'a>>
    requires { AreBounded given.turns }
    ensures words { AreOptions result (specified.options (read_words.options_read given.entry) (texts words.now)) }
    ensures turns { IfSome result (λ o. AreBounded o.turns) }
{
    match words {
        [] => Some(given),
        [name, value, rest @ ..] => {
            let more = with_option(given, name.as_str(), value.as_str())?;
            all_options(more, rest)
        }
        _ => None,
    }
}

// One option more.
fn with_option<'a>(given: Options<'a>, name: &str, value: &'a str) -> Option<Options<'a>>
    requires { AreBounded given.turns }
    ensures words { AreOptions result (specified.with_option (read_words.options_read given.entry) name.now value.now) }
    ensures turns { IfSome result (λ o. AreBounded o.turns) }
{
    match name {
        "--script" => with_script(given, value),
        "--turns" => with_turns(given, value),
        _ => None,
    }
}

// The script's file, which is named at most once.
fn with_script<'a>(given: Options<'a>, name: &'a str) -> Option<Options<'a>>
    requires { AreBounded given.turns }
    ensures words { AreOptions result (specified.with_script (read_words.options_read given.entry) name.now) }
    ensures turns { IfSome result (λ o. AreBounded o.turns) }
{
    match given.script {
        Some(_) => None,
        None => {
            if name.is_empty() {
                None
            } else {
                Some(Options {
                    script: Some(name),
                    ..given
                })
            }
        }
    }
}

// The bound, which is given at most once.
fn with_turns<'a>(given: Options<'a>, text: &str) -> Option<Options<'a>>
    ensures words { AreOptions result (specified.with_turns (read_words.options_read given.entry) text.now) }
    ensures turns { IfSome result (λ o. AreBounded o.turns) }
{
    match given.turns {
        Some(_) => None,
        None => {
            let turns = number_to(text, MOST_TURNS)?;
            Some(Options {
                turns: Some(turns),
                ..given
            })
        }
    }
}
