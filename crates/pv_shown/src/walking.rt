//! What commands show of a run.
ghost use Rattle.std.specs.Prelude.{◌≡◌, ◌++◌, IfOk, OnOk};
ghost use Rattle.std.specs.List.Sorted.{IsNonDecreasingBy};
ghost use Rattle.pv_journal.specs.Lines.{rows_under};
ghost use Rattle.pv_journal.specs.Obeying.{Obeys};
ghost use Rattle.pv_shown.specs.Shown as specified;
ghost use Rattle.pv_shown.specs.Recorded.{AreEnds, Tells};
ghost use Rattle.pv_shown.specs.Views.{run_view};

use crate::NoMemory;
use crate::moving::{Ran, moved, runs_on};
use crate::past::{Past, past_of};
use crate::reading::Command;
use crate::showing::{add_at, add_list, add_pairs};
use crate::texts::add_number;
use pv_journal::Line;
use pv_script::Names;
use std::alloc::Global;

/// What commands show of a run, one behind the other, from the first position on. The only error is want of memory.
pub fn report(alloc: Global, ran: Ran<'_>, commands: &[Command]) -> Result<Vec<u8>, NoMemory>
    requires { Obeys (rows_under ran.names.now ran.lines.now) }
    ensures { IfOk result (λ v. v.items ≡ specified.report_of (run_view ran.entry) commands.now) }
{
    let past = past_of(alloc, ran.names, ran.lines)?;
    turns_rise(ran.names, ran.lines);
    let mut text = Vec::new(alloc);
    add_shown(alloc, &mut text, &ran, &past, commands)?;
    Ok(text)
}

// Turns never fall along lines that obey. Nothing is done here.
fn turns_rise(names: &Names, lines: &[Line])
    requires { Obeys (rows_under names.now lines.now) }
    ensures { IsNonDecreasingBy (λ l. l.turn) lines.now }
{}

// Adds what commands show, one behind the other. The only error is want of memory.
fn add_shown(
    alloc: Global,
    text: &mut Vec<u8>,
    ran: &Ran<'_>,
    past: &Past,
    commands: &[Command],
) -> Result<(), NoMemory>
    requires ordered { IsNonDecreasingBy (λ l. l.turn) ran.now.lines.now }
    requires tells { Tells ran.now.names.now (rows_under ran.now.names.now ran.now.lines.now) past.now.lives.items past.now.ties.items }
    requires ends { AreEnds past.now.lives.items past.now.ends.items }
    ensures { OnOk result (text.new.items ≡ text.old.items ++ specified.shown_from (run_view ran.now) 1 commands.now) }
{
    let mut n = 1;
    for command in commands {
        n = moved(ran, n, *command);
        add_one(alloc, text, ran, past, n, *command)?;
    }
    Ok(())
}

// Adds what a command shows at a position.
fn add_one(
    alloc: Global,
    text: &mut Vec<u8>,
    ran: &Ran<'_>,
    past: &Past,
    n: u64,
    command: Command,
) -> Result<(), NoMemory>
    requires tells { Tells ran.now.names.now (rows_under ran.now.names.now ran.now.lines.now) past.now.lives.items past.now.ties.items }
    requires ends { AreEnds past.now.lives.items past.now.ends.items }
    ensures { OnOk result (text.new.items ≡ text.old.items ++ specified.command_text (run_view ran.now) n command) }
{
    match command {
        Command::Go(_) => add_where(alloc, text, ran, n),
        Command::Step(_) => add_where(alloc, text, ran, n),
        Command::Back(_) => add_where(alloc, text, ran, n),
        Command::Next => add_where(alloc, text, ran, n),
        Command::Prev => add_where(alloc, text, ran, n),
        Command::List => add_list(alloc, text, ran.names, past, n),
        Command::Pairs => add_pairs(alloc, text, ran.names, past.ties.as_slice(), n),
        Command::At(a) => add_at(alloc, text, ran.names, past, n, a),
    }
}

// Adds how the run with a position as its bound ends.
fn add_where(alloc: Global, text: &mut Vec<u8>, ran: &Ran<'_>, n: u64) -> Result<(), NoMemory>
    ensures { OnOk result (text.new.items ≡ text.old.items ++ specified.where_text (run_view ran.now) n) }
{
    if runs_on(ran, n) {
        add_number(alloc, text, b"turn ", n)?;
        text.extend_from_slice(b" running\n")?;
    } else {
        text.extend_from_slice(ran.line)?;
    }
    Ok(())
}
