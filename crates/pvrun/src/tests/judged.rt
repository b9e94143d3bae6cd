//! The call from the bytes of a source to the end of its run, with sides and without them.

use super::{expect, text};
use pv_exec::Side;
use pv_explain::Pointers;
use pv_script::MemSink;
use pv_serve::{Judgement, NoMemory, STORY_EVENTS, judge, line, status};
use pv_watch::{Hall, Watch};
use std::alloc::Global;
use std::process::Abort;
use std::test::*;

// A pointer that was an integer may be one past `x` or at `y`.
const PAIR: &str = r#"int printf(const char *, ...);
int x = 1, y = 2;
int main(void) {
  unsigned long a = (unsigned long)(&x + 1);
  unsigned long b = (unsigned long)&y;
  int *p = (int *)a;
  *p = 11;
  printf("%d %d %d\n", x, y, a == b);
  return 0;
}
"#;

// The two objects beside each other.
const BESIDE: &str = "x 1 0x20000\ny 1 0x20004\n";

// More turns than the program takes.
const BOUND: u64 = 1_000_000;

// The sides of these letters.
fn sides_of(alloc: Global, letters: &str) -> Result<Vec<Side>, NoMemory> {
    let mut sides = Vec::new(alloc);
    for letter in letters.bytes() {
        sides.push(if letter == b'h' {
            Side::High
        } else {
            Side::Low
        })?;
    }
    Ok(sides)
}

// What is told of a judgement: the status, the output, the line, and the sides of its run.
fn told_of(alloc: Global, judgement: &Judgement, out: &[u8]) -> Result<String, NoMemory> {
    let mut report = line(alloc, judgement)?;
    if let Judgement::Ran { ran, .. } = judgement {
        report.extend_from_slice(b"sides ")?;
        for i in 0..ran.sides.len() {
            report.push(if ran.sides.at(i) == Side::High {
                b'h'
            } else {
                b'l'
            })?;
        }
        report.push(b'\n')?;
    }
    text(alloc, status(judgement), out, report.as_slice())
}

// What is told of the program with a pair before one who follows its pairs, where the run has these sides, if any are given: a
// letter for each.
fn told(rt: &impl Abort, alloc: Global, sides: Option<&str>) -> String {
    let pointers = Box::new(alloc, Pointers::new(alloc, STORY_EVENTS)).expect(rt, "no memory");
    let mut watchers: Vec<Box<dyn Watch>> = Vec::new(alloc);
    watchers.push(pointers).expect(rt, "no memory");
    let mut hall = Hall::new(alloc, watchers).expect(rt, "no memory");
    let mut out = MemSink::new(alloc, 4096, &[]).expect(rt, "no memory");
    let given = sides_of(alloc, sides.unwrap_or("")).expect(rt, "no memory");
    let judgement = judge(
        alloc,
        PAIR.as_bytes(),
        BESIDE.as_bytes(),
        BOUND,
        true,
        sides.map(|_| given.as_slice()),
        &mut out,
        &mut hall,
    )
    .expect(rt, "no outcome");
    told_of(alloc, &judgement, out.bytes()).expect(rt, "no memory")
}

#[test]
fn a_pair_stands_for_its_side(rt: HostRuntime) {
    let alloc = rt.alloc();
    let rows = [
        (None, "0 1 11 1\nexit status=0 turn=29\nsides h\n"),
        (Some("h"), "0 1 11 1\nexit status=0 turn=29\nsides h\n"),
        (Some("hl"), "0 1 11 1\nexit status=0 turn=29\nsides h\n"),
        (
            Some("l"),
            "1 undefined clause=6.5.3.2p4 reason=outside line=7 turn=19\nsides l\n",
        ),
    ];
    for (sides, wanted) in &rows {
        let told = told(&rt, alloc, *sides);
        expect(&rt, PAIR, sides.unwrap_or("late"), told.as_str(), wanted);
    }
}

#[test]
fn a_pair_without_a_side_ends_the_run(rt: HostRuntime) {
    let told = told(&rt, rt.alloc(), Some(""));
    let front = told.as_str().strip_prefix("14 sides ended pair=1\n");
    assert!(&rt; front.is_some(), "{told:?}");
}
