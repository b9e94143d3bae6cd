use crate::{locate, locate_calmly};
use pv_script::{CalmFiles, CalmSink, MemFiles, MemSink};
use pv_serve::NoMemory;
use std::alloc::Global;
use std::process::Abort;
use std::test::*;

mod rows;

// The numbers of the read and of the write that fail, 0 for none, and the most bytes of a write.
#[derive(Clone, Copy)]
struct Devices {
    read: u64,
    write: u64,
    most: usize,
}

// The 257 reads that the longest source takes, and no more; no write fails.
const SOUND: Devices = Devices {
    read: 258,
    write: 0,
    most: 4096,
};

// What is told: the status, and all that was written.
fn text(alloc: Global, status: u8, out: &[u8]) -> Result<String, NoMemory> {
    let out = str::from_utf8(out).unwrap_or("no text");
    Ok(format!(in alloc; "{status}\n{out}")?)
}

// The words of a line, with one space between two; an empty line has none, and `''` is a word of no bytes.
fn words_of(alloc: Global, line: &str) -> Result<Vec<String>, NoMemory> {
    let mut words = Vec::new(alloc);
    if !line.is_empty() {
        for word in line.split(' ') {
            let word = if word == "''" { "" } else { word };
            words.push(String::from_str(alloc, word)?)?;
        }
    }
    Ok(words)
}

// What is told of the source `a.c`.
fn told(rt: &impl Abort, alloc: Global, source: &str, words: &str, devices: Devices) -> String {
    let words = words_of(alloc, words).expect(rt, "no memory");
    let mut files = MemFiles::new(alloc, &[devices.read]).expect(rt, "no memory");
    files.put("a.c", source.as_bytes()).expect(rt, "no memory");
    let most = devices.most.max(1);
    let mut out = MemSink::new(alloc, most, &[devices.write]).expect(rt, "no memory");
    let status = locate(alloc, words.as_slice(), &mut files, &mut out);
    text(alloc, status, out.bytes()).expect(rt, "no memory")
}

// The same over files and a sink that never fail.
fn calmly_told(rt: &impl Abort, alloc: Global, source: &str) -> String {
    let words = words_of(alloc, "a.c").expect(rt, "no memory");
    let mut files = CalmFiles::new(alloc);
    files.put("a.c", source.as_bytes()).expect(rt, "no memory");
    let mut out = CalmSink::new(alloc, 4096).expect(rt, "no memory");
    let status = locate_calmly(alloc, words.as_slice(), &mut files, &mut out);
    text(alloc, status, out.bytes()).expect(rt, "no memory")
}

// A form as a text: between two backticks stands a number, a space, and what is repeated so often.
fn repeated(rt: &impl Abort, alloc: Global, form: &str) -> String {
    let mut text = String::new(alloc);
    let mut within = false;
    for part in form.split('`') {
        if within {
            let (times, part) = part.split_once(' ').unwrap_or(("0", ""));
            let times = times.parse::<usize>().unwrap_or(0);
            let part = part.repeat(alloc, times).expect(rt, "no memory");
            text.push_str(part.as_str()).expect(rt, "no memory");
        } else {
            text.push_str(part).expect(rt, "no memory");
        }
        within = !within;
    }
    text
}

fn expect(rt: &impl Abort, case: &str, told: &str, wanted: &str) {
    assert!(rt; told == wanted, "{case:?}: {told:?}, not {wanted:?}");
}

// The rows of a table: the lines of a source, and behind a line feed and `=> ` the status and the lines that are told. A line `---` stands
// behind each row. The source has no line feed at its end, unless an empty line stands there.
fn agree(rt: &impl Abort, alloc: Global, table: &str, calmly: bool) {
    for row in table.split("---\n") {
        if let Some((source, wanted)) = row.split_once("\n=> ") {
            let case = repeated(rt, alloc, source);
            let wanted = repeated(rt, alloc, wanted);
            let told = if calmly {
                calmly_told(rt, alloc, case.as_str())
            } else {
                told(rt, alloc, case.as_str(), "a.c", SOUND)
            };
            expect(rt, source, told.as_str(), wanted.as_str());
        }
    }
}

#[test]
fn each_row_is_told(rt: HostRuntime) {
    for table in &[rows::KINDS, rows::MARKED, rows::LINES, rows::ESCAPED] {
        agree(&rt, rt.alloc(), table, false);
        agree(&rt, rt.alloc(), table, true);
    }
}

// Minutes with the checks of a trial.
#[test]
fn long_sources_are_told(rt: HostRuntime) {
    agree(&rt, rt.alloc(), rows::LONG, false);
}

// Numbers of the read and of the write that fail, where a write takes three bytes, and words; and what is told of a source with a bad byte.
#[test]
fn a_call_that_fails_is_told(rt: HostRuntime) {
    for line in rows::CALLS.lines() {
        if let Some((call, wanted)) = line.split_once(" => ") {
            let (read, call) = call.split_once(' ').unwrap_or((call, ""));
            let (write, words) = call.split_once(' ').unwrap_or((call, ""));
            let devices = Devices {
                read: read.parse::<u64>().unwrap_or(0),
                write: write.parse::<u64>().unwrap_or(0),
                most: 3,
            };
            let told = told(&rt, rt.alloc(), "int a@;", words, devices);
            let wanted = lines_of(&rt, rt.alloc(), wanted);
            expect(&rt, line, told.as_str(), wanted.as_str());
        }
    }
}

// A status and what is told on one line, where `/` stands for a line feed.
fn lines_of(rt: &impl Abort, alloc: Global, line: &str) -> String {
    let mut text = String::new(alloc);
    for (index, part) in line.split('/').enumerate() {
        if index > 0 {
            text.push('\n').expect(rt, "no memory");
        }
        text.push_str(part).expect(rt, "no memory");
    }
    text
}
