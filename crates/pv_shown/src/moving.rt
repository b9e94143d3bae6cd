//! Moving through a run.
ghost use Rattle.std.specs.Prelude.{◌≡◌, ◌+◌, true, false, nat_le, nat_lt, min, length, ◌≤◌, List, ℕ};
ghost use Rattle.std.specs.List.Sorted.{IsNonDecreasingBy, IsPartitionPoint};
ghost use Rattle.pv_journal.specs.Lines.{rows_under};
ghost use Rattle.pv_shown.specs.Shown as specified;
ghost use Rattle.pv_shown.specs.Views.{run_view};

use crate::reading::Command;
use crate::words::LAST_POSITION;
use pv_journal::Line;
use pv_script::Names;

/// A run (C17 5.1.2.3) whose bound on turns was the last position, 1000000.
#[derive(Clone, Copy)]
pub struct Ran<'a> {
    /// The names of its instances.
    pub names: &'a Names,
    /// What it did to its memory: the lines of its journal.
    pub lines: &'a [Line],
    /// How many turns it took.
    pub taken: u64,
    /// It ended because one more turn was due.
    pub by_turns: bool,
    /// The line of its report, with its line feed.
    pub line: &'a [u8],
}

/// Whether the run with the bound n ends because one more turn is due.
pub(crate) fn runs_on(ran: &Ran<'_>, n: u64) -> bool
    ensures { result ≡ specified.runs_on (run_view ran.now) n }
{
    n < ran.taken || ran.taken == n && ran.by_turns
}

/// The position to which a command moves.
pub(crate) fn moved(ran: &Ran<'_>, n: u64, command: Command) -> u64
    requires ordered { IsNonDecreasingBy (λ l. l.turn) ran.now.lines.now }
    ensures { result ≡ specified.position_after (run_view ran.now) n command }
{
    match command {
        Command::Go(turn) => turn,
        Command::Step(turns) => stepped(n, turns),
        Command::Back(turns) => n.saturating_sub(turns).max(1),
        Command::Next => next_turn(ran.lines, n),
        Command::Prev => last_turn(ran.lines, n),
        Command::List => n,
        Command::Pairs => n,
        Command::At(_) => n,
    }
}

// So many turns on, and to the last position at most.
fn stepped(n: u64, turns: u64) -> u64
    ensures { result ≡ min (n + turns) 1000000 }
{
    n.saturating_add(turns).min(LAST_POSITION)
}

// The least turn above n at which something happened, or n.
fn next_turn(lines: &[Line], n: u64) -> u64
    requires { IsNonDecreasingBy (λ l. l.turn) lines.now }
    ensures { (names : List (List ℕ)) → result ≡ specified.next_turn n (rows_under names lines.now) }
{
    let place = above(lines, n);
    if place < lines.len() {
        lines[place].turn
    } else {
        n
    }
}

// The greatest turn below n, and at least 1, at which something happened, or n.
fn last_turn(lines: &[Line], n: u64) -> u64
    requires { IsNonDecreasingBy (λ l. l.turn) lines.now }
    ensures { (names : List (List ℕ)) → result ≡ specified.last_turn n n (rows_under names lines.now) }
{
    let place = from(lines, n);
    if place == 0 {
        return n;
    }
    let turn = lines[place - 1].turn;
    if turn == 0 { n } else { turn }
}

// The place of the first line behind a turn, or the one behind them all.
fn above(lines: &[Line], n: u64) -> usize
    requires { IsNonDecreasingBy (λ l. l.turn) lines.now }
    ensures point { IsPartitionPoint (λ l. nat_le l.turn n ≡ true) (λ l. nat_le l.turn n ≡ false) lines.now result }
    ensures within { result ≤ length lines.now }
{
    lines.partition_point(|l| l.turn <= n)
}

// The place of the first line at a turn or behind it, or the one behind them all.
fn from(lines: &[Line], n: u64) -> usize
    requires { IsNonDecreasingBy (λ l. l.turn) lines.now }
    ensures point { IsPartitionPoint (λ l. nat_lt l.turn n ≡ true) (λ l. nat_lt l.turn n ≡ false) lines.now result }
    ensures within { result ≤ length lines.now }
{
    lines.partition_point(|l| l.turn < n)
}
