//! What rows of text can't show: words that are no job, devices that fail or never do, other halls, sides. The rows of whole programs
//! are those of `pv_gallery`.

use pv_script::{MemFiles, MemSink};
use pv_serve::{NoMemory, serve_shipped};
use std::alloc::Global;
use std::process::Abort;
use std::test::*;

mod calm;
mod failing;
mod halls;
mod judged;
mod words;

// What is told of a source: the status, and all that was written.
fn text(alloc: Global, status: u8, out: &[u8], report: &[u8]) -> Result<String, NoMemory> {
    let out = str::from_utf8(out).unwrap_or("no text");
    let report = str::from_utf8(report).unwrap_or("no text");
    Ok(format!(in alloc; "{status} {out}{report}")?)
}

// The numbers of the read and of the writes of the output and of the report that fail, 0 for none, and the most bytes
// of a write.
#[derive(Clone, Copy)]
struct Devices {
    read: u64,
    out: u64,
    write: u64,
    most: usize,
}

// No call fails.
const SOUND: Devices = Devices {
    read: 0,
    out: 0,
    write: 0,
    most: 4096,
};

// The bytes of the source `a.c` and of the script `s`.
#[derive(Clone, Copy)]
struct Input<'a> {
    source: &'a [u8],
    script: &'a [u8],
}

// What is told of the source `a.c`, where the script `s` is there to be named.
fn told(rt: &impl Abort, alloc: Global, input: Input<'_>, words: &str, devices: Devices) -> String {
    let words = words_of(alloc, words).expect(rt, "no memory");
    let mut files = MemFiles::new(alloc, &[devices.read]).expect(rt, "no memory");
    files.put("a.c", input.source).expect(rt, "no memory");
    files.put("s", input.script).expect(rt, "no memory");
    let most = devices.most.max(1);
    let mut out = MemSink::new(alloc, most, &[devices.out]).expect(rt, "no memory");
    let mut report = MemSink::new(alloc, most, &[devices.write]).expect(rt, "no memory");
    let words = words.as_slice();
    let status = serve_shipped(alloc, words, &mut files, &mut out, &mut report).expect(
        rt,
        "no memory",
    );
    text(alloc, status, out.bytes(), report.bytes()).expect(rt, "no memory")
}

// A source without a script.
fn alone(source: &[u8]) -> Input<'_> {
    Input {
        source,
        script: b"",
    }
}

// A source with a script of one line.
fn with_script(source: &str) -> Input<'_> {
    Input {
        source: source.as_bytes(),
        script: b"x 1 0x20000\n",
    }
}

// The words of a line, with one space between two; an empty line has none.
fn words_of(alloc: Global, line: &str) -> Result<Vec<String>, NoMemory> {
    let mut words = Vec::new(alloc);
    if !line.is_empty() {
        for word in line.split(' ') {
            words.push(String::from_str(alloc, word)?)?;
        }
    }
    Ok(words)
}

fn expect(rt: &impl Abort, case: &str, words: &str, told: &str, wanted: &str) {
    assert!(rt;
        told == wanted,
        "{case:?} {words}: {told:?}, not {wanted:?}"
    );
}

// A source of 25 bytes.
const SHORTEST: &str = "int main(void){return 0;}";
