//! The journal of a run: what it did to its memory, event by event.
ghost use Rattle.std.specs.Prelude.{◌≡◌, ◌<◌, ◌++◌, [], IfOk, OnOk};
ghost use Rattle.pv_watch.specs.Slots.{watcher, Present};
ghost use Rattle.pv_watch.specs.Lines.{event_lines};
ghost use Rattle.pv_watch.specs.TextParts.{last_line};
ghost use Rattle.pv_watch.specs.Kinds.{journal_kind};

use crate::known::Known;
use crate::log::Log;
use pv_script::Names;
use pv_watch::{Attend, Event, NoMemory, Watch};
use std::alloc::Global;
use std::marker::Model;

/// A watcher whose text is a journal (docs/FORMATS.md, Journals): a line for each event that it has seen, and behind them the line
/// `events C` with their number. One that wants more events than a run has tells the whole run; its text never ends with `cut`.
#[derive(Drop)]
pub struct Journal {
    log: Log,
}

impl Model for Journal {
    ghost use Rattle.pv_explain.specs.Told.{Watching};

    ghost Value = { Watching };

    ghost view = { λ w. record { wants = w.log.wants; seen = w.log.seen.items } };
}

impl Journal {
    /// One that wants to see so many events. It has seen none, and takes no memory.
    pub fn new(alloc: Global, wants: u64) -> Journal
        requires { 0 < wants }
        ensures { watcher ⟦<Journal as Watch>⟧.its_kind ⟦<Journal as Watch>⟧.its_wants ⟦<Journal as Watch>⟧.seen result ≡ Present journal_kind wants [] }
    {
        Journal {
            log: Log::new(alloc, wants),
        }
    }
}

impl Watch for Journal {
    ghost seen = { λ w. w.seen };

    ghost its_kind = { λ w. journal_kind };

    ghost its_wants = { λ w. w.wants };

    fn kind(&self) -> u8 {
        4
    }

    fn wants(&self) -> u64 {
        self.log.wants
    }

    fn see(&mut self, e: &Event) -> Attend {
        self.log.see(e)
    }

    fn text(&self, alloc: Global, names: &Names) -> Result<Vec<u8>, NoMemory> {
        let known = Known::new(alloc, self.log.seen.as_slice(), names)?;
        let mut text = all_lines(&known)?;
        add_last(alloc, &mut text, self.log.seen.len() as u64)?;
        Ok(text)
    }
}

// The lines of all events.
fn all_lines(known: &Known) -> Result<Vec<u8>, NoMemory>
    ensures { IfOk result (λ text. text.items ≡ event_lines known.now.seen known.now.names known.now.seen) }
{
    let mut text = Vec::new(known.alloc);
    for e in known.seen {
        known.add_if(&mut text, true, e)?;
    }
    Ok(text)
}

// Adds the line with their number.
fn add_last(alloc: Global, text: &mut Vec<u8>, count: u64) -> Result<(), NoMemory>
    ensures { OnOk result (text.new.items ≡ text.old.items ++ last_line count) }
{
    let last = format!(in alloc; "events {count}\n")?;
    text.extend_from_slice(last.as_bytes())?;
    Ok(())
}
