//! What led to a fault.
ghost use Rattle.std.specs.Prelude.{◌≡◌, ◌<◌, [], not, if◌then◌else◌, IfOk, false};
ghost use Rattle.pv_watch.specs.Lines.{first_told, event_lines};
ghost use Rattle.pv_watch.specs.Slots.{watcher, Present};
ghost use Rattle.pv_watch.specs.Kinds.{is_that, is_suspect, suspects_of, concerns, is_fault, concerning, explain_text, story_kind};

use crate::known::Known;
use crate::log::Log;
use pv_script::Names;
use pv_watch::{Attend, Event, NoMemory, Watch, What};
use std::alloc::Global;
use std::marker::Model;

/// A watcher whose text tells what led to the first fault that it has seen (C17 3.4.3, 3.19.2).
///
/// It has the lines of those events that name a candidate or the pair of the pointer that was tested last, and of the fault
/// itself, in order; where no fault was seen it is the line `no fault`.
#[derive(Drop)]
pub struct Explain {
    log: Log,
}

impl Model for Explain {
    ghost use Rattle.pv_explain.specs.Told.{Watching};

    ghost Value = { Watching };

    ghost view = { λ w. record { wants = w.log.wants; seen = w.log.seen.items } };
}

impl Explain {
    /// One that wants to see so many events. It has seen none, and takes no memory.
    pub fn new(alloc: Global, wants: u64) -> Explain
        requires { 0 < wants }
        ensures { watcher ⟦<Explain as Watch>⟧.its_kind ⟦<Explain as Watch>⟧.its_wants ⟦<Explain as Watch>⟧.seen result ≡ Present story_kind wants [] }
    {
        Explain {
            log: Log::new(alloc, wants),
        }
    }
}

impl Watch for Explain {
    ghost seen = { λ w. w.seen };

    ghost its_kind = { λ w. story_kind };

    ghost its_wants = { λ w. w.wants };

    fn kind(&self) -> u8 {
        1
    }

    fn wants(&self) -> u64 {
        self.log.wants
    }

    fn see(&mut self, e: &Event) -> Attend {
        self.log.see(e)
    }

    fn text(&self, alloc: Global, names: &Names) -> Result<Vec<u8>, NoMemory> {
        let mut text = explained(alloc, self.log.seen.as_slice(), names)?;
        self.log.add_cut(&mut text)?;
        Ok(text)
    }
}

/// The candidates and the pair of the pointer that was tested last before the fault.
#[derive(Drop)]
struct Suspects {
    low: Option<u64>,
    high: Option<u64>,
    pair: Option<u64>,
}

impl Model for Suspects {
    ghost use Rattle.pv_watch.specs.Kinds.{Suspects as Those};

    ghost Value = { Those };

    ghost view = { λ s. record { low = s.low; high = s.high; pair = s.pair } };
}

/// Those of the first fault.
fn suspected(seen: &[Event]) -> Option<Suspects>
    ensures { result ≡ first_told suspects_of seen.now }
{
    for e in seen {
        if let What::Fault {
            low,
            high,
            pair,
            ..
        } = e.what
        {
            return Some(Suspects { low, high, pair });
        }
    }
    None
}

/// Whether that number is known, and this one.
fn is_that(number: Option<u64>, i: u64) -> bool
    ensures { result ≡ is_that number i }
{
    match number {
        Some(n) => n == i,
        None => false,
    }
}

/// Whether an instance is one of the candidates.
fn is_suspect(s: &Suspects, i: u64) -> bool
    ensures { result ≡ is_suspect s.now i }
{
    is_that(s.low, i) || is_that(s.high, i)
}

/// Whether an event names a candidate or the pair.
fn concerns(s: &Suspects, what: &What) -> bool
    ensures { result ≡ concerns s.now what.now }
{
    match *what {
        What::Made { inst, .. } | What::Ended { inst } | What::Exposed { inst } => is_suspect(
            s, inst,
        ),
        What::Pair {
            pair,
            low,
            high,
            ..
        } => is_suspect(s, low) || is_suspect(s, high) || is_that(s.pair, pair),
        What::Tried { pair, .. } => is_that(s.pair, pair),
        What::Fault { .. } => false,
    }
}

/// Whether the run ended with a verdict.
fn is_fault(what: &What) -> bool
    ensures { result ≡ is_fault what.now }
{
    match what {
        What::Fault { .. } => true,
        _ => false,
    }
}

/// Whether the story has an event: it is the first fault, or concerns it.
fn has_part(s: &Suspects, passed: bool, what: &What) -> bool
    ensures { result ≡ (if is_fault what.now then not passed else concerns s.now what.now) }
{
    if is_fault(what) {
        !passed
    } else {
        concerns(s, what)
    }
}

/// The lines of the events that concern a fault, and of the fault itself.
fn story(known: &Known, s: &Suspects) -> Result<Vec<u8>, NoMemory>
    ensures { IfOk result (λ text. text.items ≡ event_lines known.now.seen known.now.names (concerning s.now false known.now.seen)) }
{
    let mut text = Vec::new(known.alloc);
    let mut passed = false;
    for e in known.seen {
        known.add_if(&mut text, has_part(s, passed, &e.what), e)?;
        passed |= is_fault(&e.what);
    }
    Ok(text)
}

/// The text, but for its end.
fn explained(alloc: Global, seen: &[Event], names: &Names) -> Result<Vec<u8>, NoMemory>
    ensures { IfOk result (λ text. text.items ≡ explain_text seen.now names.now) }
{
    match suspected(seen) {
        Some(s) => {
            let known = Known::new(alloc, seen, names)?;
            story(&known, &s)
        }
        None => Ok(Vec::from_slice(alloc, b"no fault\n")?),
    }
}
