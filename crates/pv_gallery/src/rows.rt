//! The rows of the files `*.rows`: words, a script, a source, and what is told of them. Their form is that of `data/README.md`.

use crate::calls::{names, no_memory, sink};
use crate::count::Count;
use pv_script::MemFiles;
use pv_serve::{NoMemory, serve_shipped};
use std::alloc::Global;
use std::rt::Files;
use std::{fs, io};

/// Runs each row of each file.
pub(crate) fn compared(
    rt: &(impl Files + Print + AllocGlobal + Clone + Drop),
) -> io::Result<Count> {
    let mut count = Count::new();
    for name in names(rt, ".rows")? {
        let path = format!(in rt.alloc(); "{name}.rows")?;
        let mut bytes = fs::read(rt, path.as_str())?;
        // So the last row too has an empty line behind it.
        bytes.push(b'\n')?;
        let Ok(text) = str::from_utf8(bytes.as_slice()) else {
            return Err(io::Error::from(io::ErrorKind::InvalidData));
        };
        count = file_compared(rt, text, count)?;
    }
    Ok(count)
}

// Runs the rows of one file, and adds them to the count. What is wanted reaches from behind an arrow to an empty line, and the
// next row begins there; what the file says of itself stands where the first arrow would want something of nothing.
fn file_compared(rt: &(impl Print + AllocGlobal), text: &str, before: Count) -> io::Result<Count> {
    let mut count = before;
    let mut asked = "";
    for part in text.split("\n=> ") {
        let (wanted, next) = part.split_once("\n\n").unwrap_or((part, ""));
        if !asked.is_empty() {
            count = count.and(agrees(rt, asked, wanted)?);
        }
        asked = next;
    }
    Ok(count)
}

// Whether a row tells what is wanted. Where it doesn't, that is told.
fn agrees(rt: &(impl Print + AllocGlobal), asked: &str, wanted: &str) -> io::Result<bool> {
    let Ok(told) = told(rt.alloc(), asked) else {
        return Err(no_memory());
    };
    let agrees = told.as_str().strip_suffix('\n') == Some(wanted);
    if !agrees {
        println!(rt; "{asked}\n=> {wanted}\nbut told is {told}")?;
    }
    Ok(agrees)
}

// What is told of the part of a row in front of its arrow: the status, and below it all that was written.
fn told(alloc: Global, asked: &str) -> Result<String, NoMemory> {
    let (line, text) = asked.split_once('\n').unwrap_or((asked, ""));
    let (times, words) = line.split_once(" times ").unwrap_or(("", line));
    let text = written_out(alloc, text, times.parse::<usize>().ok())?;
    let words = words_of(alloc, words)?;
    let mut files = files_of(alloc, text.as_str())?;
    let mut out = sink(alloc)?;
    let mut report = sink(alloc)?;
    let status = serve_shipped(alloc, words.as_slice(), &mut files, &mut out, &mut report)?;
    let out = str::from_utf8(out.bytes()).unwrap_or("no text");
    let report = str::from_utf8(report.bytes()).unwrap_or("no text");
    Ok(format!(in alloc; "{status}\n{out}{report}")?)
}

// A text in which what stands between two backticks stands so many times; with no number, the text as it is.
fn written_out(alloc: Global, form: &str, times: Option<usize>) -> Result<String, NoMemory> {
    let Some(times) = times else {
        return Ok(String::from_str(alloc, form)?);
    };
    let mut text = String::new(alloc);
    let mut count = 1;
    for part in form.split('`') {
        text.push_str(part.repeat(alloc, count)?.as_str())?;
        count = if count == 1 { times } else { 1 };
    }
    Ok(text)
}

// The words of a line, with one space between two.
fn words_of(alloc: Global, line: &str) -> Result<Vec<String>, NoMemory> {
    let mut words = Vec::new(alloc);
    for word in line.split(' ') {
        words.push(String::from_str(alloc, word)?)?;
    }
    Ok(words)
}

// The files of a row: the script `s` of the lines that begin with that word, and the source `a.c` of all others, without the
// line feed behind the last of them.
fn files_of(alloc: Global, text: &str) -> Result<MemFiles, NoMemory> {
    let mut script = String::new(alloc);
    let mut source = String::new(alloc);
    for line in text.split('\n') {
        let (file, line) = match line.strip_prefix("script ") {
            Some(line) => (&mut script, line),
            None => (&mut source, line),
        };
        file.push_str(line)?;
        file.push('\n')?;
    }
    let source = source.as_str().strip_suffix('\n').unwrap_or("");
    let mut files = MemFiles::new(alloc, &[])?;
    files.put("s", script.as_str().as_bytes())?;
    files.put("a.c", source.as_bytes())?;
    Ok(files)
}
