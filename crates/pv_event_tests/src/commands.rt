// Commands, and what they show of a run by the lines of its journal (docs/FORMATS.md, Commands).
ghost use Rattle.pv_journal.specs.Lines.{rows_under};
ghost use Rattle.pv_journal.specs.Obeying.{Obeys};

use crate::journals::WHOLE;
use pv_journal::{Line, check};
use pv_script::Names;
use pv_shown::{Command, CommandError, Ran, commands, refusal, report};
use std::alloc::Global;
use std::process::Abort;

/// The lines of the journal.
fn lines_of(rt: &impl Abort, alloc: Global, names: &mut Names) -> Vec<Line>
    ensures { Obeys (rows_under names.new result.items) }
{
    match check(alloc, WHOLE.as_bytes(), names) {
        Ok(lines) => lines,
        Err(_) => panic!(rt; "no journal"),
    }
}

/// At turn 9 the first object of the block has ended; the next turn at which something happens is 10.
#[test]
fn a_run_is_shown(rt: HostRuntime) {
    let alloc = rt.alloc();
    let mut names = Names::new(alloc);
    let lines = lines_of(&rt, alloc, &mut names);
    let Ok(asked) = commands(alloc, b"go 9\nlist\nnext\n") else {
        panic!(rt; "no commands");
    };
    assert!(rt; asked.len() == 3 && asked[0] == Command::Go(9));
    let ran = Ran {
        names: &names,
        lines: &lines,
        taken: 15,
        by_turns: false,
        line: b"undefined\n",
    };
    let told = report(alloc, ran, &asked).ok().expect(&rt, "no memory");
    let wanted = "turn 9 running\nlive p#1 base=0x10000 size=8\nlive count=1\nturn 10 running\n";
    assert_eq!(rt; told.as_slice(), wanted.as_bytes());
}

#[test]
fn a_line_that_is_no_command_is_told(rt: HostRuntime) {
    let Err(error) = commands(rt.alloc(), b"list\ngo 0\n") else {
        panic!(rt; "commands");
    };
    assert!(rt; error == CommandError::BadLine { line: 2 });
    let told = refusal(rt.alloc(), error).ok().expect(&rt, "no memory");
    assert_eq!(rt; told.as_slice(), b"command reason=line line=2\n".as_slice());
}
