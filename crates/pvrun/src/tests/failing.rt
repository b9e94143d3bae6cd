//! Files and sinks that fail at one of their calls.

use super::{Devices, SHORTEST, alone, expect, text, told, with_script};
use std::alloc::Global;
use std::process::Abort;
use std::test::*;

// A program that prints six bytes.
const PRINTS: &str =
    r#"int printf(const char *, ...); int main(void){printf("abcdef"); return 0;}"#;

// The numbers of the read, of the write of the output and of the write of the report that fail, 0 for none, where a
// write takes three bytes; words; and what an independent executor of the same rules tells of [`PRINTS`], with a script of one line. A blank
// at its end is left out.
const FAULTS: &str = r#"
1 0 0 run a.c => 11 fault read
2 0 0 run a.c => 11 fault read
3 0 0 run a.c => 0 abcdefexit status=0 turn=6
1 0 0 run a.c --script s => 11 fault read
2 0 0 run a.c --script s => 11 fault read
3 0 0 run a.c --script s => 11 fault read
4 0 0 run a.c --script s => 11 fault read
5 0 0 run a.c --script s => 0 abcdefexit status=0 turn=6
1 0 0 check a.c => 11 fault read
3 0 0 check a.c => 0 checked declarations=2
2 0 0 layout a.c => 11 fault read
1 0 0 settle a.c => 11 fault read
3 0 0 settle a.c --script s --sides l => 11 fault read
1 0 2 run a.c => 12 fau
3 0 2 run a.c --script s => 12 fau
0 0 2 check a.c => 12 che
0 0 2 settle => 12 wor
0 0 2 settle a.c => 12 abcdefexi
0 2 0 settle a.c => 12 abc
0 1 0 run a.c => 12
0 2 0 run a.c => 12 abc
0 3 0 run a.c => 0 abcdefexit status=0 turn=6
0 0 1 run a.c => 12 abcdef
0 0 2 run a.c => 12 abcdefexi
0 1 1 run a.c => 12
"#;

#[test]
fn a_call_that_fails_is_told(rt: HostRuntime) {
    let input = with_script(PRINTS);
    for line in FAULTS.lines() {
        if let Some((call, wanted)) = line.split_once(" => ") {
            let (read, call) = number_of(call);
            let (out, call) = number_of(call);
            let (write, words) = number_of(call);
            let devices = Devices {
                read,
                out,
                write,
                most: 3,
            };
            let told = told(&rt, rt.alloc(), input, words, devices);
            expect(&rt, line, words, told.as_str().trim_end(), wanted);
        }
    }
}

// The number in front of a blank, and what stands behind it.
fn number_of(text: &str) -> (u64, &str) {
    match text.split_once(' ') {
        Some((digits, rest)) => (digits.parse::<u64>().unwrap_or(0), rest),
        None => (0, text),
    }
}

// The report is refused at its first calls, in pieces of one byte, of three, and whole: what is told is a prefix.
#[test]
fn a_report_that_is_refused_is_a_prefix(rt: HostRuntime) {
    for most in [1, 3, 4096] {
        for refused in 1usize..24 {
            let devices = Devices {
                read: 0,
                out: 0,
                write: refused as u64,
                most,
            };
            report_is_cut_off(&rt, rt.alloc(), devices, most * (refused - 1));
        }
    }
}

const LINE: &[u8] = b"exit status=0 turn=3\n";

// What is told of the shortest source by devices that take so many bytes of the report.
fn report_is_cut_off(rt: &impl Abort, alloc: Global, devices: Devices, room: usize) {
    let told = told(rt, alloc, alone(SHORTEST.as_bytes()), "run a.c", devices);
    let (status, line) = if room < LINE.len() {
        (12, &LINE[..room])
    } else {
        (0, LINE)
    };
    let wanted = text(alloc, status, b"", line).expect(rt, "no memory");
    expect(rt, SHORTEST, "cut off", told.as_str(), wanted.as_str());
}

// A program that prints ten thousand bytes, and its report.
const TENS: &str = r#"
int printf(const char *, ...);
int main(void) {
  int i;
  for (i = 0; i < 1000; i++)
    printf("0123456789");
  return 0;
}
"#;

const TENS_LINE: &[u8] = b"exit status=0 turn=8010\n";

// So is output: whole blocks of it go out as they come.
#[test]
fn output_that_is_refused_is_a_prefix(rt: HostRuntime) {
    for most in [1, 3, 4096] {
        for refused in 1usize..6 {
            let devices = Devices {
                read: 0,
                out: refused as u64,
                write: 0,
                most,
            };
            output_is_cut_off(&rt, rt.alloc(), devices, most * (refused - 1));
        }
    }
}

// What is told of ten thousand bytes of output by devices that take so many of them.
fn output_is_cut_off(rt: &impl Abort, alloc: Global, devices: Devices, room: usize) {
    let tens = "0123456789".repeat(alloc, 1000).expect(rt, "no memory");
    let told = told(rt, alloc, alone(TENS.as_bytes()), "run a.c", devices);
    let wanted = if room < tens.len() {
        text(alloc, 12, &tens.as_bytes()[..room], b"")
    } else {
        text(alloc, 0, tens.as_bytes(), TENS_LINE)
    };
    let wanted = wanted.expect(rt, "no memory");
    expect(rt, TENS, "cut off", told.as_str(), wanted.as_str());
}

// The report is refused at its first call, behind all of the output, which stands.
#[test]
fn output_stands_before_a_report_that_is_refused(rt: HostRuntime) {
    let devices = Devices {
        read: 0,
        out: 0,
        write: 1,
        most: 4096,
    };
    let tens = "0123456789"
        .repeat(rt.alloc(), 1000)
        .expect(&rt, "no memory");
    let told = told(&rt, rt.alloc(), alone(TENS.as_bytes()), "run a.c", devices);
    let wanted = text(rt.alloc(), 12, tens.as_bytes(), b"").expect(&rt, "no memory");
    expect(
        &rt,
        TENS,
        "a report is refused",
        told.as_str(),
        wanted.as_str(),
    );
}

// A program that prints without end.
const ENDLESS: &str =
    r#"int printf(const char *, ...); int main(void){for(;;) printf("0123456789");}"#;

// It ends with the first block that is refused, whatever the bound is.
#[test]
fn a_write_that_is_refused_ends_an_endless_run(rt: HostRuntime) {
    let devices = Devices {
        read: 0,
        out: 1,
        write: 0,
        most: 4096,
    };
    let words = "run a.c --turns 100000000";
    let told = told(&rt, rt.alloc(), alone(ENDLESS.as_bytes()), words, devices);
    expect(&rt, ENDLESS, words, told.as_str(), "12 ");
}
