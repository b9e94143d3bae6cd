use crate::{WANTS, replay_calmly, watched};
use pv_explain::Journal;
use pv_script::{CalmFiles, CalmSink, MemFiles, MemSink};
use pv_serve::NoMemory;
use pv_watch::{Hall, Watch};
use std::alloc::Global;
use std::process::Abort;
use std::test::*;

mod rows;

// The numbers of the read and of the write that fail, 0 for none.
#[derive(Clone, Copy)]
struct Devices {
    read: u64,
    write: u64,
}

// No call fails.
const SOUND: Devices = Devices { read: 0, write: 0 };

// What is told: the status, and all that was written.
fn text(alloc: Global, status: u8, report: &[u8]) -> Result<String, NoMemory> {
    let report = str::from_utf8(report).unwrap_or("no text");
    Ok(format!(in alloc; "{status}\n{report}")?)
}

// The words of a line, with one space between two; an empty line has none, and `''` is a word of no bytes.
fn words_of(alloc: Global, line: &str) -> Result<Vec<String>, NoMemory> {
    let mut words = Vec::new(alloc);
    if !line.is_empty() {
        for word in line.split(' ') {
            let word = if word == "''" { "" } else { word };
            words.push(String::from_str(alloc, word)?)?;
        }
    }
    Ok(words)
}

// A text that is written on one line, where `/` stands for a line feed.
fn lines_of(rt: &impl Abort, alloc: Global, line: &str) -> String {
    let mut text = String::new(alloc);
    for (index, part) in line.split('/').enumerate() {
        if index > 0 {
            text.push('\n').expect(rt, "no memory");
        }
        text.push_str(part).expect(rt, "no memory");
    }
    text
}

// What is told of a journal, where a write takes three bytes.
fn told(rt: &impl Abort, alloc: Global, words: &str, journal: &str, devices: Devices) -> String {
    let words = words_of(alloc, words).expect(rt, "no memory");
    let mut files = MemFiles::new(alloc, &[devices.read]).expect(rt, "no memory");
    for (name, bytes) in rows::FILES {
        files.put(name, bytes.as_bytes()).expect(rt, "no memory");
    }
    files.put("j", journal.as_bytes()).expect(rt, "no memory");
    let mut report = MemSink::new(alloc, 3, &[devices.write]).expect(rt, "no memory");
    let status = watched(alloc, words.as_slice(), &mut files, &mut report).expect(rt, "no memory");
    text(alloc, status, report.bytes()).expect(rt, "no memory")
}

// Calls `replay_calmly` before one watcher, which keeps a journal.
fn calmly(
    alloc: Global,
    words: &[String],
    files: &mut CalmFiles,
    report: &mut CalmSink,
) -> Result<u8, NoMemory> {
    let mut watchers: Vec<Box<dyn Watch>> = Vec::new(alloc);
    watchers.push(Box::new(alloc, Journal::new(alloc, WANTS))?)?;
    let mut hall = Hall::new(alloc, watchers)?;
    Ok(replay_calmly(alloc, words, files, report, &mut hall))
}

// The same over files and a sink that never fail.
fn calmly_told(rt: &impl Abort, alloc: Global, words: &str, journal: &str) -> String {
    let words = words_of(alloc, words).expect(rt, "no memory");
    let mut files = CalmFiles::new(alloc);
    for (name, bytes) in rows::FILES {
        files.put(name, bytes.as_bytes()).expect(rt, "no memory");
    }
    files.put("j", journal.as_bytes()).expect(rt, "no memory");
    let mut report = CalmSink::new(alloc, 4096).expect(rt, "no memory");
    let status = calmly(alloc, words.as_slice(), &mut files, &mut report).expect(rt, "no memory");
    text(alloc, status, report.bytes()).expect(rt, "no memory")
}

fn expect(rt: &impl Abort, case: &str, told: &str, wanted: &str) {
    assert!(rt; told == wanted, "{case:?}: {told:?}, not {wanted:?}");
}

// A number, and what stands behind the space after it.
fn number_before(line: &str) -> (u64, &str) {
    let (number, rest) = line.split_once(' ').unwrap_or((line, ""));
    (number.parse::<u64>().unwrap_or(0), rest)
}

// The rows of a table: the numbers of the read and of the write that fail, the words, the journal, the status and the report.
#[test]
fn each_row_is_told(rt: HostRuntime) {
    for row in rows::CALLS.lines() {
        if let Some((call, wanted)) = row.split_once(" => ") {
            let (call, journal) = call.split_once(": ").unwrap_or((call, ""));
            let (read, call) = number_before(call);
            let (write, words) = number_before(call);
            let journal = lines_of(&rt, rt.alloc(), journal);
            let wanted = lines_of(&rt, rt.alloc(), wanted);
            let devices = Devices { read, write };
            let told = told(&rt, rt.alloc(), words, journal.as_str(), devices);
            expect(&rt, row, told.as_str(), wanted.as_str());
        }
    }
}

// The rows of a table whose devices never fail: the words, the journal, the status and the report.
#[test]
fn each_calm_row_is_told(rt: HostRuntime) {
    for row in rows::CALMLY.lines() {
        if let Some((call, wanted)) = row.split_once(" => ") {
            let (words, journal) = call.split_once(": ").unwrap_or((call, ""));
            let journal = lines_of(&rt, rt.alloc(), journal);
            let wanted = lines_of(&rt, rt.alloc(), wanted);
            let told = calmly_told(&rt, rt.alloc(), words, journal.as_str());
            expect(&rt, row, told.as_str(), wanted.as_str());
        }
    }
}

// The longest journal that is checked, and a longer one.
#[test]
fn a_longer_journal_is_not_checked(rt: HostRuntime) {
    let alloc = rt.alloc();
    let longest = "x".repeat(alloc, 16_777_216).expect(&rt, "no memory");
    let told_longest = told(&rt, alloc, "check j", longest.as_str(), SOUND);
    expect(
        &rt,
        "the longest journal",
        told_longest.as_str(),
        "17\njournal bad line=1\n",
    );
    let longer = format!(in alloc; "{longest}x").expect(&rt, "no memory");
    let told_longer = told(&rt, alloc, "check j", longer.as_str(), SOUND);
    expect(
        &rt,
        "a longer journal",
        told_longer.as_str(),
        "18\njournal size\n",
    );
}

// Runs of as many events as a journal tells, and of one more: it tells of its first ones.
#[test]
fn a_journal_tells_so_many_events_at_most(rt: HostRuntime) {
    let last = "\nend a#32767 turn=294903\nend i#1 turn=294913\nevents 65536\n";
    let cut = "\nend a#32767 turn=294903\nevents 65536\n";
    for (words, end) in [("write many.c", last), ("write more.c", cut)] {
        let told = told(&rt, rt.alloc(), words, "", SOUND);
        assert!(rt; told.as_str().ends_with(end), "{words}");
    }
}
