//! What a watcher keeps of a run.
ghost use Rattle.std.specs.Prelude.{◌≡◌, ◌==◌, ◌<◌, ◌++◌, [], length, OnOk};

use pv_watch::{Attend, Event, NoMemory};
use std::alloc::Global;

/// The events that a watcher has seen, in order, and how many it wants to see.
#[derive(Drop)]
pub(crate) struct Log {
    pub(crate) wants: u64,
    pub(crate) seen: Vec<Event>,
    ghost some: { 0 < wants },
}

impl Log {
    ghost use Rattle.pv_watch.specs.Adding.{Sees};
    ghost use Rattle.pv_watch.specs.Kinds.{cut_line};

    /// Nothing is seen yet, which takes no memory.
    pub(crate) fn new(alloc: Global, wants: u64) -> Log
        requires { 0 < wants }
        ensures wants { result.wants ≡ wants }
        ensures none { result.seen.items ≡ [] }
    {
        Log {
            wants,
            seen: Vec::new(alloc),
        }
    }

    /// Whether there are as many events as it wants.
    fn has_enough(&self) -> bool
        ensures { result ≡ (length self.now.seen.items == self.now.wants) }
    {
        self.seen.len() as u64 == self.wants
    }

    /// One event more, unless memory runs out.
    pub(crate) fn see(&mut self, e: &Event) -> Attend
        ensures wants { self.new.wants ≡ self.old.wants }
        ensures seen { Sees self.old.seen.items self.new.seen.items self.old.wants e.now result }
    {
        if self.seen.push(*e).is_err() {
            return Attend::NoMemory;
        }
        if self.has_enough() {
            Attend::Enough
        } else {
            Attend::More
        }
    }

    /// Adds the line which says that later events may be missing, if they may.
    pub(crate) fn add_cut(&self, text: &mut Vec<u8>) -> Result<(), NoMemory>
        ensures { OnOk result (text.new.items ≡ text.old.items ++ cut_line self.now.wants self.now.seen.items) }
    {
        if self.has_enough() {
            text.extend_from_slice(b"cut\n")?;
        }
        Ok(())
    }
}
