// The words of the command line (C17 5.1.2.2.1).
ghost use Rattle.std.specs.Prelude.{◌≡◌, ◌<◌, ◌≤◌, ◌&&◌, ◌||◌, ◌++◌, IfSome, OnOk, IfOk};
ghost use Rattle.std.specs.List.{list_all};
ghost use Rattle.pv_script.specs.Words.{number_to};
ghost use Rattle.pv_serve.specs.Words as specified;
ghost use Rattle.pv_serve.specs.WordParts as specified_parts;
ghost use Rattle.pv_serve.specs.ReadWords as read_words;
ghost use Rattle.pv_serve.specs.Jobs.{if_wanted, kinds_of};
ghost use Rattle.pv_serve.specs.ReadWords.{IsTask, IsAsked, AreOptions, AreBounded};

use std::alloc::{AllocError, Global};

/// The largest value of `--turns`.
pub const MOST_TURNS: u64 = 100_000_000;

/// The turns of a run whose words do not say.
pub const DEFAULT_TURNS: u64 = 1_000_000;

// The largest number of a generated source.
const MOST_GENERATED: u64 = 8_192;

/// What is to be done with a source.
#[derive(Clone, Copy)]
pub enum Task {
    /// It is run, with at most so many turns; with `zap` a pointer to what has ended is indeterminate (C17 6.2.4p2).
    Run { bound: u64, zap: bool },
    /// The same, and the side of each pair of candidates is told, unless the sides are given: then each pair stands for its side from
    /// its making.
    Settle { bound: u64, zap: bool },
    /// It is read and typed, and the number of its external declarations is told.
    Check,
    /// The same, and the layouts of its structures and unions are told.
    Layout,
}

/// Which watchers a run is told to: the story of its fault, the count of its events, the life of each of its pairs.
#[derive(Clone, Copy)]
pub struct Watched {
    pub explain: bool,
    pub census: bool,
    pub pointers: bool,
}

// None of them.
const NOBODY: Watched = Watched {
    explain: false,
    census: false,
    pointers: false,
};

/// The count of events alone.
pub const COUNTED: Watched = Watched {
    explain: false,
    census: true,
    pointers: false,
};

// A kind more in a list, if it is wanted.
fn add_wanted(kinds: &mut Vec<u8>, wanted: bool, kind: u8) -> Result<(), AllocError>
    ensures { OnOk result (kinds.new.items ≡ kinds.old.items ++ if_wanted wanted kind) }
{
    if wanted {
        kinds.push(kind)?;
    }
    Ok(())
}

/// Their kinds, by which a hall knows them.
pub(crate) fn kinds_of(alloc: Global, watched: Watched) -> Result<Vec<u8>, AllocError>
    ensures { IfOk result (λ v. v.items ≡ kinds_of watched) }
{
    let mut kinds = Vec::new(alloc);
    add_wanted(&mut kinds, watched.explain, 1)?;
    add_wanted(&mut kinds, watched.census, 2)?;
    add_wanted(&mut kinds, watched.pointers, 3)?;
    Ok(kinds)
}

/// What is asked of a file: a task, the file that holds the source, the file that holds the script of addresses, if there is one, sides and
/// watchers.
#[derive(Clone, Copy)]
pub struct Asked<'a> {
    /// The name of the file, of at least one byte.
    pub file: &'a str,
    /// The name of the script's file, of at least one byte.
    pub script: Option<&'a str>,
    /// What is to be done with the source.
    pub task: Task,
    /// The sides of pairs: `-`, or a letter `l` or `h` for each.
    pub sides: Option<&'a str>,
    /// Who watches its run.
    pub watched: Watched,
}

/// The modes whose words have options.
#[derive(Clone, Copy)]
pub enum Mode {
    /// `run`, which may be watched.
    Run,
    /// `settle`, which tells or is told the sides of pairs.
    Settle,
}

/// What the options say, as far as they are read.
#[derive(Clone, Copy)]
pub struct Options<'a> {
    pub script: Option<&'a str>,
    pub turns: Option<u64>,
    pub zap: Option<bool>,
    pub sides: Option<&'a str>,
    pub watched: Watched,
}

/// The number of the generated source that is to be run, where the words are `gen N`.
pub fn generated(words: &[String]) -> Option<u32>
    ensures value { result ≡ specified.generator_count (specified.texts words.now) }
    ensures range { IfSome result (λ n. (0 < n) × (n ≤ 8192)) }
{
    match words {
        [mode, number] => {
            if mode.as_str() == "gen" {
                source_number(number.as_str())
            } else {
                None
            }
        }
        _ => None,
    }
}

// The number of a generated source.
fn source_number(text: &str) -> Option<u32>
    ensures value { result ≡ number_to 8192 text.now }
    ensures range { IfSome result (λ n. (0 < n) × (n ≤ 8192)) }
{
    let number = number_to(text, MOST_GENERATED)?;
    Some(number as u32)
}

/// What the words ask of a file, if they do: `run FILE` or `settle FILE` with options, `check FILE` or `layout FILE`.
///
/// The options of both are `--script F`, `--turns N` and `--zap V`, each at most once, in any order. A run has `--watch W` too, at most once for
/// each of `explain`, `census` and `pointers`, and a settled run `--sides S`, at most once.
pub(crate) fn file_job(words: &[String]) -> Option<Asked<'_>>
    ensures words { IsAsked result (specified.file_job (specified.texts words.now)) }
    ensures turns { IfSome result (λ j. IsTask j.task) }
{
    match words {
        [mode, file, rest @ ..] => {
            if file.as_str().is_empty() {
                None
            } else {
                asked_by(mode.as_str(), file.as_str(), rest)
            }
        }
        _ => None,
    }
}

// What a mode asks of a file, with these words behind it.
fn asked_by<'a>(mode: &str, file: &'a str, rest: &'a [String]) -> Option<Asked<'a>>
    ensures words { IsAsked result (specified.file_job_for mode.now file.now (specified.texts rest.now)) }
    ensures turns { IfSome result (λ j. IsTask j.task) }
{
    match mode {
        "run" => run_of(file, rest),
        "settle" => settle_of(file, rest),
        "check" => described(Task::Check, file, rest),
        "layout" => described(Task::Layout, file, rest),
        _ => None,
    }
}

// A run of a file, with these options.
fn run_of<'a>(file: &'a str, rest: &'a [String]) -> Option<Asked<'a>>
    ensures words { IsAsked result (specified_parts.run_of file.now (specified.texts rest.now)) }
    ensures turns { IfSome result (λ j. IsTask j.task) }
{
    let options = all_options(Mode::Run, no_options(), rest)?;
    Some(Asked {
        file,
        script: options.script,
        task: Task::Run {
            bound: options.turns.unwrap_or(DEFAULT_TURNS),
            zap: options.zap.unwrap_or(true),
        },
        sides: None,
        watched: options.watched,
    })
}

// A settled run of a file, with these options.
fn settle_of<'a>(file: &'a str, rest: &'a [String]) -> Option<Asked<'a>>
    ensures words { IsAsked result (specified_parts.settle_of file.now (specified.texts rest.now)) }
    ensures turns { IfSome result (λ j. IsTask j.task) }
{
    let options = all_options(Mode::Settle, no_options(), rest)?;
    Some(Asked {
        file,
        script: options.script,
        task: Task::Settle {
            bound: options.turns.unwrap_or(DEFAULT_TURNS),
            zap: options.zap.unwrap_or(true),
        },
        sides: options.sides,
        watched: NOBODY,
    })
}

/// No option was read yet.
pub fn no_options<'a>() -> Options<'a>
    ensures said { read_words.options_read result ≡ specified.no_options }
    ensures turns { AreBounded result.turns }
{
    Options {
        script: None,
        turns: None,
        zap: None,
        sides: None,
        watched: NOBODY,
    }
}

// What describes a file has no options.
fn described<'a>(task: Task, file: &'a str, rest: &[String]) -> Option<Asked<'a>>
    requires { IsTask task }
    ensures words { IsAsked result (specified.description_job task file.now (specified.texts rest.now)) }
    ensures turns { IfSome result (λ j. IsTask j.task) }
{
    match rest {
        [] => Some(Asked {
            file,
            script: None,
            task,
            sides: None,
            watched: NOBODY,
        }),
        _ => None,
    }
}

// What the options say, behind those that were read: pairs of a word and its value.
fn all_options<'a>(mode: Mode, given: Options<'a>, words: &'a [String]) -> Option<Options<'a>>
    requires { AreBounded given.turns }
    ensures words { AreOptions result
        (specified.options mode (read_words.options_read given.entry) (specified.texts words.now)) }
    ensures turns { IfSome result (λ o. AreBounded o.turns) }
{
    match words {
        [] => Some(given),
        [name, value, rest @ ..] => {
            let more = with_option(mode, given, name.as_str(), value.as_str())?;
            all_options(mode, more, rest)
        }
        _ => None,
    }
}

/// One option more, if it is one of the mode's and was not read yet.
pub fn with_option<'a>(
    mode: Mode,
    given: Options<'a>,
    name: &str,
    value: &'a str,
) -> Option<Options<'a>>
    requires { AreBounded given.turns }
    ensures words { AreOptions result (specified.with_option mode (read_words.options_read given.entry) name.now value.now) }
    ensures turns { IfSome result (λ o. AreBounded o.turns) }
{
    match name {
        "--script" => with_script(given, value),
        "--turns" => with_turns(given, value),
        "--zap" => with_zap(given, value),
        _ => with_own(mode, given, name, value),
    }
}

// The option that a mode has by itself.
fn with_own<'a>(mode: Mode, given: Options<'a>, name: &str, value: &'a str) -> Option<Options<'a>>
    requires { AreBounded given.turns }
    ensures words { AreOptions result (specified.with_own mode (read_words.options_read given.entry) name.now value.now) }
    ensures turns { IfSome result (λ o. AreBounded o.turns) }
{
    match mode {
        Mode::Run => {
            if name == "--watch" {
                with_watch(given, value)
            } else {
                None
            }
        }
        Mode::Settle => {
            if name == "--sides" {
                with_sides(given, value)
            } else {
                None
            }
        }
    }
}

// The script's file, which is named at most once.
fn with_script<'a>(given: Options<'a>, name: &'a str) -> Option<Options<'a>>
    requires { AreBounded given.turns }
    ensures words { AreOptions result (specified_parts.with_script (read_words.options_read given.entry) name.now) }
    ensures turns { IfSome result (λ o. AreBounded o.turns) }
{
    match given.script {
        Some(_) => None,
        None => {
            if name.is_empty() {
                None
            } else {
                Some(Options {
                    script: Some(name),
                    ..given
                })
            }
        }
    }
}

// The bound, which is given at most once.
fn with_turns<'a>(given: Options<'a>, text: &str) -> Option<Options<'a>>
    ensures words { AreOptions result (specified_parts.with_turns (read_words.options_read given.entry) text.now) }
    ensures turns { IfSome result (λ o. AreBounded o.turns) }
{
    match given.turns {
        Some(_) => None,
        None => {
            let turns = turns_of(text)?;
            Some(Options {
                turns: Some(turns),
                ..given
            })
        }
    }
}

// Whether a pointer to what has ended is indeterminate, which is said at most once.
fn with_zap<'a>(given: Options<'a>, word: &str) -> Option<Options<'a>>
    requires { AreBounded given.turns }
    ensures words { AreOptions result (specified_parts.with_zap (read_words.options_read given.entry) word.now) }
    ensures turns { IfSome result (λ o. AreBounded o.turns) }
{
    match given.zap {
        Some(_) => None,
        None => {
            let zap = zap_of(word)?;
            Some(Options {
                zap: Some(zap),
                ..given
            })
        }
    }
}

// The value of `--zap`.
fn zap_of(word: &str) -> Option<bool>
    ensures { result ≡ specified.zap_of word.now }
{
    match word {
        "on" => Some(true),
        "off" => Some(false),
        _ => None,
    }
}

// The sides of pairs, which are given at most once.
fn with_sides<'a>(given: Options<'a>, word: &'a str) -> Option<Options<'a>>
    requires { AreBounded given.turns }
    ensures words { AreOptions result (specified_parts.with_sides (read_words.options_read given.entry) word.now) }
    ensures turns { IfSome result (λ o. AreBounded o.turns) }
{
    match given.sides {
        Some(_) => None,
        None => {
            if are_sides(word) {
                Some(Options {
                    sides: Some(word),
                    ..given
                })
            } else {
                None
            }
        }
    }
}

// Whether a word says sides: `-`, or one or more letters `l` and `h`.
fn are_sides(word: &str) -> bool
    ensures { result ≡ specified.are_sides word.now }
{
    word == "-" || !word.is_empty() && are_letters(word.as_bytes())
}

// Whether all of these are letters of sides.
fn are_letters(letters: &[u8]) -> bool
    ensures { result ≡ list_all specified_parts.is_side letters.now }
{
    letters
        .iter()
        .all(|letter| *letter == b'l' || *letter == b'h')
}

// A watcher more, which is asked for at most once.
fn with_watch<'a>(given: Options<'a>, word: &str) -> Option<Options<'a>>
    requires { AreBounded given.turns }
    ensures words { AreOptions result (specified_parts.with_watch (read_words.options_read given.entry) word.now) }
    ensures turns { IfSome result (λ o. AreBounded o.turns) }
{
    let watched = one_more(given.watched, word)?;
    Some(Options { watched, ..given })
}

// The same watchers and one more, which was not among them.
fn one_more(watched: Watched, word: &str) -> Option<Watched>
    ensures { result ≡ specified.one_more watched word.now }
{
    let Watched {
        explain,
        census,
        pointers,
    } = watched;
    match word {
        "explain" => once(
            explain,
            Watched {
                explain: true,
                census,
                pointers,
            },
        ),
        "census" => once(
            census,
            Watched {
                explain,
                census: true,
                pointers,
            },
        ),
        "pointers" => once(
            pointers,
            Watched {
                explain,
                census,
                pointers: true,
            },
        ),
        _ => None,
    }
}

// More watchers, unless the one that is new was wanted before.
fn once(wanted: bool, more: Watched) -> Option<Watched>
    ensures { result ≡ specified_parts.watch_once wanted more }
{
    if wanted { None } else { Some(more) }
}

// The value of `--turns`: decimal, without a leading zero, from 1 to 100000000.
fn turns_of(text: &str) -> Option<u64>
    ensures value { result ≡ specified_parts.turns_of text.now }
    ensures range { IfSome result (λ n. (0 < n) × (n ≤ 100000000)) }
{
    number_to(text, MOST_TURNS)
}

/// A number from 1 to `most`: decimal, without a leading zero.
pub fn number_to(text: &str, most: u64) -> Option<u64>
    requires { most ≤ 100000000 }
    ensures value { result ≡ number_to most text.now }
    ensures range { IfSome result (λ n. (0 < n) × (n ≤ most)) }
{
    pv_script::number_to(text.as_bytes(), most)
}
