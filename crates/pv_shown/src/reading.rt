//! Reading a file of commands.
ghost use Rattle.std.specs.Prelude.{◌≡◌, map, IfOk};
ghost use Rattle.std.specs.Io.BufRead.{strip_last};
ghost use Rattle.pv_shown.specs.Commands as specified;
ghost use Rattle.pv_shown.specs.Views.{OrNoMemory};

use crate::NoMemory;
use crate::words::command_in;
use pv_script::pieces;
use std::alloc::Global;

/// The most bytes that a file of commands may have.
pub const COMMANDS_LIMIT: usize = 65_536;

/// What is asked of a run.
#[derive(Clone, Copy, Debug, PartialEq, Eq)]
pub enum Command {
    /// To this position, from 1 to 1000000.
    Go(u64),
    /// So many turns on, and to the last position at most.
    Step(u64),
    /// So many turns back, and to the first position at least.
    Back(u64),
    /// To the next turn at which something happens in memory.
    Next,
    /// To the last turn before at which something happened in memory.
    Prev,
    /// The instances that live.
    List,
    /// The pairs of candidates that were made.
    Pairs,
    /// The instances at this address.
    At(u64),
}

/// Why a text is no file of commands.
#[derive(Clone, Copy, Debug, PartialEq, Eq)]
pub enum CommandError {
    /// It has more than [`COMMANDS_LIMIT`] bytes.
    Size,
    /// This line, from 1, is the first that is no command.
    BadLine { line: u32 },
    /// Memory ran out.
    NoMemory,
}

/// The commands of a file, in the order of its lines: `Size` exactly where it has more than [`COMMANDS_LIMIT`] bytes, else the first line
/// that is no command.
pub fn commands(alloc: Global, text: &[u8]) -> Result<Vec<Command>, CommandError>
    ensures { OrNoMemory (λ v. v.items) result (specified.commands_of text.now) }
{
    if COMMANDS_LIMIT < text.len() {
        return Err(CommandError::Size);
    }
    let Ok(lines) = lines_of(alloc, text) else {
        return Err(CommandError::NoMemory);
    };
    let mut commands = Vec::new(alloc);
    for i in 0..lines.len() {
        if let Err(error) = add_line(&mut commands, lines[i], i as u32 + 1) {
            return Err(error);
        }
    }
    Ok(commands)
}

// The lines of a text that has not too many bytes. The only error is want of memory.
fn lines_of(alloc: Global, text: &[u8]) -> Result<Vec<&[u8]>, NoMemory>
    ensures { IfOk result (λ v. map (λ x. x.now) v.items ≡ specified.lines_of text.now) }
{
    if text.is_empty() {
        return Ok(Vec::new(alloc));
    }
    match pieces(alloc, without_feed(text), b'\n') {
        Ok(lines) => Ok(lines),
        Err(_) => Err(NoMemory),
    }
}

// A text without the line feed at its end, if it has one.
fn without_feed(text: &[u8]) -> &[u8]
    ensures { result.now ≡ strip_last 10 text.now }
{
    match text {
        [rest @ .., b'\n'] => rest,
        _ => text,
    }
}

// The command of one line more, if it is one.
fn add_line(commands: &mut Vec<Command>, line: &[u8], number: u32) -> Result<(), CommandError>
    ensures { OrNoMemory (λ _. commands.new.items) result (specified.after_line number line.now commands.old.items) }
{
    let Some(command) = command_in(line) else {
        return Err(CommandError::BadLine { line: number });
    };
    match commands.push(command) {
        Ok(()) => Ok(()),
        Err(_) => Err(CommandError::NoMemory),
    }
}

/// What is told of a text that is no file of commands, and nothing where memory ran out. The only error is want of memory.
pub fn refusal(alloc: Global, error: CommandError) -> Result<Vec<u8>, NoMemory>
    ensures { IfOk result (λ v. v.items ≡ specified.refusal_line error) }
{
    match error {
        CommandError::Size => Ok(Vec::from_slice(alloc, b"command reason=size\n")?),
        CommandError::BadLine { line } => {
            Ok(format!(in alloc; "command reason=line line={line}\n")?.into_bytes())
        }
        CommandError::NoMemory => Ok(Vec::new(alloc)),
    }
}
