//! What the rows need: the names of their files, and sinks.

use pv_script::MemSink;
use pv_serve::NoMemory;
use std::alloc::Global;
use std::rt::Files;
use std::{fs, io};

/// The names of the folder's files with an ending, without it, in order.
pub(crate) fn names(
    rt: &(impl Files + AllocGlobal + Clone + Drop),
    ending: &str,
) -> io::Result<Vec<String>> {
    let mut names = Vec::new(rt.alloc());
    for entry in fs::read_dir(rt, ".")? {
        let entry = entry?;
        if let Some(name) = entry.file_name().strip_suffix(ending) {
            names.push(String::from_str(rt.alloc(), name)?)?;
        }
    }
    names.sort()?;
    Ok(names)
}

/// A sink that takes all that it is given.
pub(crate) fn sink(alloc: Global) -> Result<MemSink, NoMemory> {
    Ok(MemSink::new(alloc, 4096, &[])?)
}

/// Memory ran out.
pub(crate) fn no_memory() -> io::Error {
    io::Error::from(io::ErrorKind::OutOfMemory)
}
