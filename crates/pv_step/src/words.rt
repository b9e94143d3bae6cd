//! The words of the command line (C17 5.1.2.2.1).
ghost use Rattle.std.specs.Prelude.{◌≡◌, MatchOption, None, Some, option_map};
ghost use Rattle.pv_serve.specs.Words.{texts};
ghost use Rattle.pv_step.specs.Words as specified;
ghost use Rattle.pv_step.specs.ReadWords.{IsAsked};

/// What is asked for: the run of a source is looked at by commands.
#[derive(Clone, Copy)]
pub struct Asked<'a> {
    /// The name of the source's file, of at least one byte.
    pub file: &'a str,
    /// The name of the file of commands, of at least one byte.
    pub commands: &'a str,
    /// The name of the file of its script of addresses, of at least one byte, if there is one.
    pub script: Option<&'a str>,
}

/// What the words ask for, if they do: `SOURCE COMMANDS`, with `--script F` behind them or without.
pub(crate) fn job_asked(words: &[String]) -> Option<Asked<'_>>
    ensures { IsAsked result (specified.job (texts words.now)) }
{
    match words {
        [file, commands, rest @ ..] => asked_by(file.as_str(), commands.as_str(), rest),
        _ => None,
    }
}

// What two files and the words behind them ask for.
fn asked_by<'a>(file: &'a str, commands: &'a str, rest: &'a [String]) -> Option<Asked<'a>>
    ensures { IsAsked result (specified.step_job_of file.now commands.now (texts rest.now)) }
{
    if file.is_empty() {
        return None;
    }
    if commands.is_empty() {
        return None;
    }
    let script = script_in(rest)?;
    Some(Asked {
        file,
        commands,
        script,
    })
}

// The script's file, if the words name one.
fn script_in(words: &[String]) -> Option<Option<&str>>
    ensures { MatchOption result (specified.script_in (texts words.now) ≡ None)
        (λ s. specified.script_in (texts words.now) ≡ Some (option_map (λ x. x.now) s)) }
{
    match words {
        [] => Some(None),
        [_] => None,
        [word, name] => script_by(word.as_str(), name.as_str()),
        [_, _, _, ..] => None,
    }
}

fn script_by<'a>(word: &str, name: &'a str) -> Option<Option<&'a str>>
    ensures { MatchOption result (specified.script_by word.now name.now ≡ None)
        (λ s. specified.script_by word.now name.now ≡ Some (option_map (λ x. x.now) s)) }
{
    if word == "--script" && !name.is_empty() {
        Some(Some(name))
    } else {
        None
    }
}
