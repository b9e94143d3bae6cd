use crate::{state, state_calmly};
use pv_script::{CalmFiles, CalmSink, MemFiles, MemSink};
use pv_serve::NoMemory;
use std::alloc::Global;
use std::process::Abort;
use std::test::*;

mod rows;

// The numbers of the read and of the write that fail, 0 for none.
#[derive(Clone, Copy)]
struct Devices {
    read: u64,
    write: u64,
}

// What is told: the status, and all that was written.
fn text(alloc: Global, status: u8, report: &[u8]) -> Result<String, NoMemory> {
    let report = str::from_utf8(report).unwrap_or("no text");
    Ok(format!(in alloc; "{status}\n{report}")?)
}

// The words of a line, with one space between two; an empty line has none, and `''` is a word of no bytes.
fn words_of(alloc: Global, line: &str) -> Result<Vec<String>, NoMemory> {
    let mut words = Vec::new(alloc);
    if !line.is_empty() {
        for word in line.split(' ') {
            let word = if word == "''" { "" } else { word };
            words.push(String::from_str(alloc, word)?)?;
        }
    }
    Ok(words)
}

// A text that is written on one line, where `/` stands for a line feed.
fn lines_of(rt: &impl Abort, alloc: Global, line: &str) -> String {
    let mut text = String::new(alloc);
    for (index, part) in line.split('/').enumerate() {
        if index > 0 {
            text.push('\n').expect(rt, "no memory");
        }
        text.push_str(part).expect(rt, "no memory");
    }
    text
}

// What is told of a call, where a write takes three bytes.
fn told(rt: &impl Abort, alloc: Global, words: &str, devices: Devices) -> String {
    let words = words_of(alloc, words).expect(rt, "no memory");
    let mut files = MemFiles::new(alloc, &[devices.read]).expect(rt, "no memory");
    for (name, bytes) in rows::FILES {
        files.put(name, bytes.as_bytes()).expect(rt, "no memory");
    }
    let mut report = MemSink::new(alloc, 3, &[devices.write]).expect(rt, "no memory");
    let status = state(alloc, words.as_slice(), &mut files, &mut report);
    text(alloc, status, report.bytes()).expect(rt, "no memory")
}

// The same over files and a sink that never fail.
fn calmly_told(rt: &impl Abort, alloc: Global, words: &str) -> String {
    let words = words_of(alloc, words).expect(rt, "no memory");
    let mut files = CalmFiles::new(alloc);
    for (name, bytes) in rows::FILES {
        files.put(name, bytes.as_bytes()).expect(rt, "no memory");
    }
    let mut report = CalmSink::new(alloc, 4096).expect(rt, "no memory");
    let status = state_calmly(alloc, words.as_slice(), &mut files, &mut report);
    text(alloc, status, report.bytes()).expect(rt, "no memory")
}

fn expect(rt: &impl Abort, case: &str, told: &str, wanted: &str) {
    assert!(rt; told == wanted, "{case:?}: {told:?}, not {wanted:?}");
}

// A number, and what stands behind the space after it.
fn number_before(line: &str) -> (u64, &str) {
    let (number, rest) = line.split_once(' ').unwrap_or((line, ""));
    (number.parse::<u64>().unwrap_or(0), rest)
}

// The rows of a table: the numbers of the read and of the write that fail, the words, the status and the report.
#[test]
fn each_row_is_told(rt: HostRuntime) {
    for row in rows::CALLS.lines() {
        if let Some((call, wanted)) = row.split_once(" => ") {
            let (read, call) = number_before(call);
            let (write, words) = number_before(call);
            let wanted = lines_of(&rt, rt.alloc(), wanted);
            let devices = Devices { read, write };
            let told = told(&rt, rt.alloc(), words, devices);
            expect(&rt, row, told.as_str(), wanted.as_str());
        }
    }
}

// The rows of a table whose devices never fail: the words, the status and the report.
#[test]
fn each_calm_row_is_told(rt: HostRuntime) {
    for row in rows::CALMLY.lines() {
        if let Some((words, wanted)) = row.split_once(" => ") {
            let wanted = lines_of(&rt, rt.alloc(), wanted);
            let told = calmly_told(&rt, rt.alloc(), words);
            expect(&rt, row, told.as_str(), wanted.as_str());
        }
    }
}
