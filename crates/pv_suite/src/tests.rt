use crate::{suite, suite_calmly};
use pv_script::{CalmFiles, CalmSink, MemFiles, MemSink};
use pv_serve::NoMemory;
use std::alloc::Global;
use std::process::Abort;
use std::test::*;

mod rows;

// The numbers of the read and of the write that fail, 0 for none.
#[derive(Clone, Copy)]
struct Devices {
    read: u64,
    write: u64,
}

// What is told: the status, and all that was written.
fn text(alloc: Global, status: u8, report: &[u8]) -> Result<String, NoMemory> {
    let report = str::from_utf8(report).unwrap_or("no text");
    Ok(format!(in alloc; "{status}\n{report}")?)
}

// The words of a line, with one space between two; an empty line has none, and `''` is a word of no bytes.
fn words_of(alloc: Global, line: &str) -> Result<Vec<String>, NoMemory> {
    let mut words = Vec::new(alloc);
    if !line.is_empty() {
        for word in line.split(' ') {
            let word = if word == "''" { "" } else { word };
            words.push(String::from_str(alloc, word)?)?;
        }
    }
    Ok(words)
}

// A text that is written on one line, where `/` stands for a line feed.
fn lines_of(rt: &impl Abort, alloc: Global, line: &str) -> String {
    let mut text = String::new(alloc);
    for (index, part) in line.split('/').enumerate() {
        if index > 0 {
            text.push('\n').expect(rt, "no memory");
        }
        text.push_str(part).expect(rt, "no memory");
    }
    text
}

// What is told of a list, where a write takes three bytes.
fn told(rt: &impl Abort, alloc: Global, words: &str, list: &str, devices: Devices) -> String {
    let words = words_of(alloc, words).expect(rt, "no memory");
    let mut files = MemFiles::new(alloc, &[devices.read]).expect(rt, "no memory");
    for (name, bytes) in rows::FILES {
        files.put(name, bytes.as_bytes()).expect(rt, "no memory");
    }
    files.put("l", list.as_bytes()).expect(rt, "no memory");
    let mut report = MemSink::new(alloc, 3, &[devices.write]).expect(rt, "no memory");
    let status = suite(alloc, words.as_slice(), &mut files, &mut report);
    text(alloc, status, report.bytes()).expect(rt, "no memory")
}

// The same over files and a sink that never fail.
fn calmly_told(rt: &impl Abort, alloc: Global, words: &str, list: &str) -> String {
    let words = words_of(alloc, words).expect(rt, "no memory");
    let mut files = CalmFiles::new(alloc);
    for (name, bytes) in rows::FILES {
        files.put(name, bytes.as_bytes()).expect(rt, "no memory");
    }
    files.put("l", list.as_bytes()).expect(rt, "no memory");
    let mut report = CalmSink::new(alloc, 4096).expect(rt, "no memory");
    let status = suite_calmly(alloc, words.as_slice(), &mut files, &mut report);
    text(alloc, status, report.bytes()).expect(rt, "no memory")
}

fn expect(rt: &impl Abort, case: &str, told: &str, wanted: &str) {
    assert!(rt; told == wanted, "{case:?}: {told:?}, not {wanted:?}");
}

// A number, and what stands behind the space after it.
fn number_before(line: &str) -> (u64, &str) {
    let (number, rest) = line.split_once(' ').unwrap_or((line, ""));
    (number.parse::<u64>().unwrap_or(0), rest)
}

// The rows of a table: the numbers of the read and of the write that fail, the words, the list, the status and the report.
#[test]
fn each_row_is_told(rt: HostRuntime) {
    for row in rows::CALLS.lines() {
        if let Some((call, wanted)) = row.split_once(" => ") {
            let (call, list) = call.split_once(": ").unwrap_or((call, ""));
            let (read, call) = number_before(call);
            let (write, words) = number_before(call);
            let list = lines_of(&rt, rt.alloc(), list);
            let wanted = lines_of(&rt, rt.alloc(), wanted);
            let told = told(
                &rt,
                rt.alloc(),
                words,
                list.as_str(),
                Devices { read, write },
            );
            expect(&rt, row, told.as_str(), wanted.as_str());
        }
    }
}

// The rows of a table whose devices never fail: the words, the list, the status and the report.
#[test]
fn each_calm_row_is_told(rt: HostRuntime) {
    for row in rows::CALMLY.lines() {
        if let Some((call, wanted)) = row.split_once(" => ") {
            let (words, list) = call.split_once(": ").unwrap_or((call, ""));
            let list = lines_of(&rt, rt.alloc(), list);
            let wanted = lines_of(&rt, rt.alloc(), wanted);
            let told = calmly_told(&rt, rt.alloc(), words, list.as_str());
            expect(&rt, row, told.as_str(), wanted.as_str());
        }
    }
}

// What is told of the list `l` where the file `long` has so many bytes.
fn told_beside(rt: &impl Abort, alloc: Global, list: &str, long: usize) -> String {
    let words = words_of(alloc, "l").expect(rt, "no memory");
    let bytes = "x".repeat(alloc, long).expect(rt, "no memory");
    let mut files = MemFiles::new(alloc, &[]).expect(rt, "no memory");
    for (name, bytes) in rows::FILES {
        files.put(name, bytes.as_bytes()).expect(rt, "no memory");
    }
    files.put("l", list.as_bytes()).expect(rt, "no memory");
    files.put("long", bytes.as_bytes()).expect(rt, "no memory");
    let mut report = MemSink::new(alloc, 4096, &[]).expect(rt, "no memory");
    let status = suite(alloc, words.as_slice(), &mut files, &mut report);
    text(alloc, status, report.bytes()).expect(rt, "no memory")
}

// The longest output, and a longer one: behind it the source of the next case is not there, and nobody reads it.
#[test]
fn a_longer_output_ends_the_list(rt: HostRuntime) {
    let list = "a.c - long 9 exit status=0 turn=3\nnone - - 9 x\n";
    let told = told_beside(&rt, rt.alloc(), list, 1_048_577);
    expect(
        &rt,
        "a longer output",
        told.as_str(),
        "16\nlist reason=output case=1\n",
    );
    let told = told_beside(&rt, rt.alloc(), list, 1_048_576);
    expect(&rt, "the longest output", told.as_str(), "11\nfault read\n");
}

// The longest list, and a longer one.
#[test]
fn a_longer_list_is_refused(rt: HostRuntime) {
    let alloc = rt.alloc();
    let longest = "#abcdef\n".repeat(alloc, 8192).expect(&rt, "no memory");
    let told = told_beside(&rt, alloc, longest.as_str(), 0);
    expect(
        &rt,
        "the longest list",
        told.as_str(),
        "0\nsuite cases=0 passed=0\n",
    );
    let longer = format!(in alloc; "{longest}#").expect(&rt, "no memory");
    let told = told_beside(&rt, alloc, longer.as_str(), 0);
    expect(
        &rt,
        "a longer list",
        told.as_str(),
        "16\nlist reason=size\n",
    );
}
