//! How many events of each kind there were.
ghost use Rattle.std.specs.Prelude.{◌≡◌, ◌<◌, ◌++◌, [], IfOk, OnOk};
ghost use Rattle.pv_watch.specs.Slots.{watcher, Present};
ghost use Rattle.pv_watch.specs.Kinds.{place_of, events_of_kind, count_line, census_text, census_kind};

use crate::log::Log;
use pv_script::Names;
use pv_watch::{Attend, Event, NoMemory, Watch, What};
use std::alloc::Global;
use std::marker::Model;

/// A watcher whose text says how many events of each kind it has seen, a line for each of the six kinds.
#[derive(Drop)]
pub struct Census {
    log: Log,
}

impl Model for Census {
    ghost use Rattle.pv_explain.specs.Told.{Watching};

    ghost Value = { Watching };

    ghost view = { λ w. record { wants = w.log.wants; seen = w.log.seen.items } };
}

impl Census {
    /// One that wants to see so many events. It has seen none, and takes no memory.
    pub fn new(alloc: Global, wants: u64) -> Census
        requires { 0 < wants }
        ensures { watcher ⟦<Census as Watch>⟧.its_kind ⟦<Census as Watch>⟧.its_wants ⟦<Census as Watch>⟧.seen result ≡ Present census_kind wants [] }
    {
        Census {
            log: Log::new(alloc, wants),
        }
    }
}

impl Watch for Census {
    ghost seen = { λ w. w.seen };

    ghost its_kind = { λ w. census_kind };

    ghost its_wants = { λ w. w.wants };

    fn kind(&self) -> u8 {
        2
    }

    fn wants(&self) -> u64 {
        self.log.wants
    }

    fn see(&mut self, e: &Event) -> Attend {
        self.log.see(e)
    }

    fn text(&self, alloc: Global, _names: &Names) -> Result<Vec<u8>, NoMemory> {
        let mut text = counts(alloc, self.log.seen.as_slice())?;
        self.log.add_cut(&mut text)?;
        Ok(text)
    }
}

/// Which of the six kinds an event is of.
fn place_of(what: &What) -> u8
    ensures { result ≡ place_of what.now }
{
    match what {
        What::Made { .. } => 0,
        What::Ended { .. } => 1,
        What::Exposed { .. } => 2,
        What::Pair { .. } => 3,
        What::Tried { .. } => 4,
        What::Fault { .. } => 5,
    }
}

/// How many events are of a kind.
fn counted(seen: &[Event], place: u8) -> usize
    ensures { result ≡ events_of_kind seen.now place }
{
    seen.iter().filter(|e| place_of(&e.what) == place).count()
}

/// The line of a kind.
fn add_count(
    alloc: Global,
    text: &mut Vec<u8>,
    word: &str,
    seen: &[Event],
    place: u8,
) -> Result<(), NoMemory>
    ensures { OnOk result (text.new.items ≡ text.old.items ++ count_line word.now (events_of_kind seen.now place)) }
{
    let count = counted(seen, place);
    let line = format!(in alloc; "{word} {count}\n")?;
    text.extend_from_slice(line.as_bytes())?;
    Ok(())
}

/// The lines of all kinds.
fn counts(alloc: Global, seen: &[Event]) -> Result<Vec<u8>, NoMemory>
    ensures { IfOk result (λ text. text.items ≡ census_text seen.now) }
{
    let mut text = Vec::new(alloc);
    add_count(alloc, &mut text, "create", seen, 0)?;
    add_count(alloc, &mut text, "end", seen, 1)?;
    add_count(alloc, &mut text, "expose", seen, 2)?;
    add_count(alloc, &mut text, "pair", seen, 3)?;
    add_count(alloc, &mut text, "use", seen, 4)?;
    add_count(alloc, &mut text, "fault", seen, 5)?;
    Ok(text)
}
