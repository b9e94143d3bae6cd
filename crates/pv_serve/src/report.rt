// The report: one line, and the status that goes with it.
ghost use Rattle.std.specs.Prelude.{◌≡◌, ◌<◌, ◌⊎◌, ◌++◌, ℕ, List, IfOk, string_bytes};
ghost use Rattle.pv_script.specs.Names.{name_at};
ghost use Rattle.pv_serve.specs.Report as specified;
ghost use Rattle.pv_serve.specs.ReportParts as specified_parts;
ghost use Rattle.pv_serve.specs.Loading.{refusal_of, lexical_refusal, typing_refusal};
ghost use Rattle.pv_serve.specs.Judging.{Shown, verdict_of};

use crate::NoMemory;
use crate::checking::Refused;
use crate::judging::Judgement;
use pv_exec::{Outcome, Ran, Side, Sides};
use pv_fault::{Fault, Reason, Verdict};
use pv_lex::LexError;
use pv_script::{Names, ScriptError};
use pv_unit::CheckError;
use std::alloc::Global;

/// The status that goes with a judgement; it takes no memory.
pub fn status(judgement: &Judgement) -> u8
    ensures value { (shown : Shown) → result ≡ specified_parts.status_of (verdict_of judgement.now shown) }
    ensures own { (result < 10) ⊎ (result ≡ 14) }
{
    match judgement {
        Judgement::Source(_) => 8,
        Judgement::Script(_) => 9,
        Judgement::Described { .. } => 0,
        Judgement::Ran { ran, .. } => run_status(ran.outcome),
        Judgement::Settled { ran, .. } => run_status(ran.outcome),
    }
}

// The status of a run.
fn run_status(outcome: Outcome) -> u8
    ensures value { (names : List (List ℕ)) (turns bound : ℕ) → result ≡ (specified.outcome_report outcome names turns bound).0 }
    ensures own { (result < 10) ⊎ (result ≡ 14) }
{
    match outcome {
        Outcome::Exit { .. } => 0,
        Outcome::Ends { verdict, .. } => match verdict {
            Verdict::Undefined(_) => 1,
            Verdict::Indeterminate => 2,
            Verdict::Undecided => 3,
        },
        Outcome::Placement { .. } => 4,
        Outcome::Storage { .. } => 5,
        Outcome::Turns => 6,
        Outcome::Abort { .. } => 7,
        Outcome::SidesEnded { .. } => 14,
    }
}

/// The line that tells a judgement, with its line feed, and behind it the line of its sides where they are listed; of a source that is described,
/// its text. The only error is want of memory.
pub fn line(alloc: Global, judgement: &Judgement) -> Result<Vec<u8>, NoMemory>
    ensures { (shown : Shown) → IfOk result (λ v. v.items ≡ specified_parts.report_line (verdict_of judgement.now shown)) }
{
    match judgement {
        Judgement::Ran { ran, names, bound } => run_line(alloc, ran, names, *bound),
        Judgement::Settled {
            ran,
            names,
            bound,
            listed,
        } => settled_lines(alloc, ran, names, *bound, *listed),
        Judgement::Described { text } => Ok(Vec::from_slice(alloc, text)?),
        Judgement::Source(refused) => refusal_line(alloc, refused),
        Judgement::Script(why) => script_line(alloc, *why),
    }
}

/// The line of a run that ended. The only error is want of memory.
pub fn run_line(alloc: Global, ran: &Ran, names: &Names, bound: u64) -> Result<Vec<u8>, NoMemory>
    ensures { IfOk result (λ v. v.items ≡ specified_parts.outcome_line ran.now.outcome names.now ran.now.turns bound) }
{
    let turns = ran.turns;
    match ran.outcome {
        Outcome::Exit { status } => Ok(exit_line(alloc, status, turns)?.into_bytes()),
        Outcome::Ends { verdict, line } => match verdict {
            Verdict::Undefined(fault) => {
                Ok(undefined_line(alloc, fault, line, turns)?.into_bytes())
            }
            Verdict::Indeterminate => {
                Ok(at_line(alloc, "indeterminate", line, turns)?.into_bytes())
            }
            Verdict::Undecided => Ok(at_line(alloc, "undecided", line, turns)?.into_bytes()),
        },
        Outcome::Placement {
            reason,
            name,
            k,
            line,
        } => placement_line(alloc, reason, text_of(names, name), k, line, turns),
        Outcome::Storage { live, size, line } => {
            Ok(storage_line(alloc, live, size, line, turns)?.into_bytes())
        }
        Outcome::Turns => Ok(format!(in alloc; "turns bound={bound}\n")?.into_bytes()),
        Outcome::Abort { line } => Ok(at_line(alloc, "abort", line, turns)?.into_bytes()),
        Outcome::SidesEnded { pair } => {
            Ok(format!(in alloc; "sides ended pair={pair}\n")?.into_bytes())
        }
    }
}

// The line of a settled run, and behind it that of its sides, where they are listed and say something.
fn settled_lines(
    alloc: Global,
    ran: &Ran,
    names: &Names,
    bound: u64,
    listed: bool,
) -> Result<Vec<u8>, NoMemory>
    ensures { IfOk result (λ v. v.items ≡ specified_parts.outcome_line ran.now.outcome names.now ran.now.turns bound
        ++ specified.listed_sides listed ran.now.outcome ran.now.sides) }
{
    let mut text = run_line(alloc, ran, names, bound)?;
    if listed && is_decided(ran.outcome) {
        let line = sides_line(alloc, &ran.sides)?;
        text.extend_from_slice(line.as_slice())?;
    }
    Ok(text)
}

// Whether the sides of a run that ended so are told.
fn is_decided(outcome: Outcome) -> bool
    ensures { result ≡ specified.is_decided outcome }
{
    match outcome {
        Outcome::Exit { .. } => true,
        Outcome::Ends { verdict, .. } => match verdict {
            Verdict::Undefined(_) => false,
            Verdict::Indeterminate => true,
            Verdict::Undecided => false,
        },
        Outcome::Placement { .. } => true,
        Outcome::Storage { .. } => true,
        Outcome::Turns => true,
        Outcome::Abort { .. } => true,
        Outcome::SidesEnded { .. } => true,
    }
}

// The line of the sides of a run.
fn sides_line(alloc: Global, sides: &Sides) -> Result<Vec<u8>, NoMemory>
    ensures { IfOk result (λ v. v.items ≡ specified_parts.sides_line sides.now) }
{
    let letters = letters_of(alloc, sides)?;
    let mut line = Vec::from_slice(alloc, b"sides ")?;
    line.extend_from_slice(letters.as_slice())?;
    line.push(b'\n')?;
    Ok(line)
}

// A letter for each side, or `-` where there is none.
fn letters_of(alloc: Global, sides: &Sides) -> Result<Vec<u8>, NoMemory>
    ensures { IfOk result (λ v. v.items ≡ specified.letters_of sides.now) }
{
    let count = sides.len();
    if count == 0 {
        return Ok(Vec::from_slice(alloc, b"-")?);
    }
    let mut letters = Vec::new(alloc);
    let mut k = 0;
    'sides: while k < count {
        letters.push(letter_of(sides.at(k)))?;
        k += 1;
    }
    Ok(letters)
}

// The letter of a side.
fn letter_of(side: Side) -> u8
    ensures { result ≡ specified.letter_of side }
{
    match side {
        Side::Low => b'l',
        Side::High => b'h',
    }
}

// The text of a name, and none of a number that no name has.
fn text_of(names: &Names, number: u32) -> &[u8]
    ensures { result.now ≡ name_at names.now number }
{
    if number < names.len() {
        names.text(number)
    } else {
        b""
    }
}

// The line of a run whose `main` returned, or that called `exit`.
fn exit_line(alloc: Global, status: i32, turns: u64) -> Result<String, NoMemory>
    ensures { IfOk result (λ s. string_bytes s ≡ specified_parts.exit_line status turns) }
{
    Ok(format!(in alloc; "exit status={status} turn={turns}\n")?)
}

// The line of a run that ended in a line of its source, by this word.
fn at_line(alloc: Global, word: &str, line: u32, turns: u64) -> Result<String, NoMemory>
    ensures { IfOk result (λ s. string_bytes s ≡ word.now ++ specified.at_line line turns) }
{
    Ok(format!(in alloc; "{word} line={line} turn={turns}\n")?)
}

// The line of a run that ended at an operation without defined behaviour.
fn undefined_line(alloc: Global, fault: Fault, line: u32, turns: u64) -> Result<String, NoMemory>
    ensures { IfOk result (λ s. string_bytes s ≡ specified_parts.undefined_line fault line turns) }
{
    let clause = fault.clause.text();
    let reason = fault.reason.text();
    Ok(format!(in alloc; "undefined clause={clause} reason={reason} line={line} turn={turns}\n")?)
}

// The line of a run that ended where the instances took too much.
fn storage_line(
    alloc: Global,
    live: u64,
    size: u64,
    line: u32,
    turns: u64,
) -> Result<String, NoMemory>
    ensures { IfOk result (λ s. string_bytes s ≡ specified_parts.storage_line live size line turns) }
{
    Ok(format!(in alloc; "storage live={live} size={size} line={line} turn={turns}\n")?)
}

// The line of a run that ended at a request that the script puts where it can't be.
fn placement_line(
    alloc: Global,
    reason: Reason,
    name: &[u8],
    k: u64,
    line: u32,
    turns: u64,
) -> Result<Vec<u8>, NoMemory>
    ensures { IfOk result (λ v. v.items ≡ specified_parts.placement_line reason name.now k line turns) }
{
    let reason = reason.text();
    let mut text = format!(in alloc; "placement reason={reason} name=")?.into_bytes();
    text.extend_from_slice(name)?;
    let rest = format!(in alloc; " k={k} line={line} turn={turns}\n")?;
    text.extend_from_slice(rest.as_bytes())?;
    Ok(text)
}

// The line of a script that is refused.
fn script_line(alloc: Global, why: ScriptError) -> Result<Vec<u8>, NoMemory>
    ensures { IfOk result (λ v. v.items ≡ specified.script_line why) }
{
    let text = match why {
        ScriptError::Size => format!(in alloc; "script reason=size\n")?,
        ScriptError::BadLine { line } => format!(in alloc; "script reason=line line={line}\n")?,
        ScriptError::Repeated { line, first } => repeated_line(alloc, line, first)?,
        ScriptError::NoMemory => return Err(NoMemory),
    };
    Ok(text.into_bytes())
}

// The line of a script of which two lines speak of one request.
fn repeated_line(alloc: Global, line: u32, first: u32) -> Result<String, NoMemory>
    ensures { IfOk result (λ s. string_bytes s ≡ specified_parts.repeated_line line first) }
{
    Ok(format!(in alloc; "script reason=repeated line={line} first={first}\n")?)
}

// The line of a source that is refused.
fn refusal_line(alloc: Global, refused: &Refused) -> Result<Vec<u8>, NoMemory>
    ensures { IfOk result (λ v. v.items ≡ specified.refusal_line (refusal_of refused.now)) }
{
    match refused {
        Refused::Size => Ok(format!(in alloc; "refused reason=size\n")?.into_bytes()),
        Refused::Lex { fault, word } => lexical_line(alloc, *fault, word.as_slice()),
        Refused::Syntax { whole } => {
            Ok(format!(in alloc; "refused reason=syntax whole={whole}\n")?.into_bytes())
        }
        Refused::Check { fault, name } => typing_line(alloc, *fault, name.as_slice()),
    }
}

// The line of a source that has a lexical fault, with this word. Want of memory is none.
fn lexical_line(alloc: Global, fault: LexError, word: &[u8]) -> Result<Vec<u8>, NoMemory>
    ensures { IfOk result (λ v. v.items ≡ specified.refusal_line (lexical_refusal fault word.now)) }
{
    match fault {
        LexError::BadByte { at } => {
            Ok(format!(in alloc; "refused reason=byte at={at}\n")?.into_bytes())
        }
        LexError::BadToken { at } => {
            Ok(format!(in alloc; "refused reason=token at={at}\n")?.into_bytes())
        }
        LexError::Profile { at, .. } => profile_line(alloc, at, word),
        LexError::NoMemory => Err(NoMemory),
    }
}

// The line of a source that has no typing, with this name. Want of memory is no reason.
fn typing_line(alloc: Global, fault: CheckError, name: &[u8]) -> Result<Vec<u8>, NoMemory>
    ensures { IfOk result (λ v. v.items ≡ specified.refusal_line (typing_refusal fault name.now)) }
{
    match fault {
        CheckError::Constraint { index } => {
            Ok(format!(in alloc; "refused reason=constraint index={index}\n")?.into_bytes())
        }
        CheckError::Unresolved { .. } => unresolved_line(alloc, name),
        CheckError::NoMain => Ok(format!(in alloc; "refused reason=main\n")?.into_bytes()),
        CheckError::NoMemory => Err(NoMemory),
    }
}

// The line of a word that is not of the language.
fn profile_line(alloc: Global, at: u32, word: &[u8]) -> Result<Vec<u8>, NoMemory>
    ensures { IfOk result (λ v. v.items ≡ specified_parts.profile_line at word.now) }
{
    let mut line = format!(in alloc; "refused reason=profile at={at} word=")?.into_bytes();
    line.extend_from_slice(word)?;
    line.push(b'\n')?;
    Ok(line)
}

// The line of a name that nothing defines.
fn unresolved_line(alloc: Global, name: &[u8]) -> Result<Vec<u8>, NoMemory>
    ensures { IfOk result (λ v. v.items ≡ specified_parts.unresolved_line name.now) }
{
    let mut line = Vec::from_slice(alloc, b"refused reason=unresolved name=")?;
    line.extend_from_slice(name)?;
    line.push(b'\n')?;
    Ok(line)
}
