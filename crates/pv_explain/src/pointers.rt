//! The lives of ambiguous pointers.
ghost use Rattle.std.specs.Prelude.{◌≡◌, ◌<◌, [], IfOk};
ghost use Rattle.pv_watch.specs.Slots.{watcher, Present};
ghost use Rattle.pv_watch.specs.Kinds.{is_of_pair, pointers_text, pointers_kind};

use crate::known::Known;
use crate::log::Log;
use pv_script::Names;
use pv_watch::{Attend, Event, NoMemory, Watch, What};
use std::alloc::Global;
use std::marker::Model;

/// A watcher whose text has the lines of the pairs that it has seen, the provenances of pointers that were made from integers
/// where two instances meet: of their makings, and of their uses, with the candidates that were left.
#[derive(Drop)]
pub struct Pointers {
    log: Log,
}

impl Model for Pointers {
    ghost use Rattle.pv_explain.specs.Told.{Watching};

    ghost Value = { Watching };

    ghost view = { λ w. record { wants = w.log.wants; seen = w.log.seen.items } };
}

impl Pointers {
    /// One that wants to see so many events. It has seen none, and takes no memory.
    pub fn new(alloc: Global, wants: u64) -> Pointers
        requires { 0 < wants }
        ensures { watcher ⟦<Pointers as Watch>⟧.its_kind ⟦<Pointers as Watch>⟧.its_wants ⟦<Pointers as Watch>⟧.seen result ≡ Present pointers_kind wants [] }
    {
        Pointers {
            log: Log::new(alloc, wants),
        }
    }
}

impl Watch for Pointers {
    ghost seen = { λ w. w.seen };

    ghost its_kind = { λ w. pointers_kind };

    ghost its_wants = { λ w. w.wants };

    fn kind(&self) -> u8 {
        3
    }

    fn wants(&self) -> u64 {
        self.log.wants
    }

    fn see(&mut self, e: &Event) -> Attend {
        self.log.see(e)
    }

    fn text(&self, alloc: Global, names: &Names) -> Result<Vec<u8>, NoMemory> {
        let known = Known::new(alloc, self.log.seen.as_slice(), names)?;
        let mut text = lives(&known)?;
        self.log.add_cut(&mut text)?;
        Ok(text)
    }
}

/// Whether an event tells of a pair.
fn is_of_pair(what: &What) -> bool
    ensures { result ≡ is_of_pair what.now }
{
    match what {
        What::Pair { .. } | What::Tried { .. } => true,
        What::Made { .. } | What::Ended { .. } | What::Exposed { .. } | What::Fault { .. } => false,
    }
}

/// The lines of the events of pairs.
fn lives(known: &Known) -> Result<Vec<u8>, NoMemory>
    ensures { IfOk result (λ text. text.items ≡ pointers_text known.now.seen known.now.names) }
{
    let mut text = Vec::new(known.alloc);
    for e in known.seen {
        known.add_if(&mut text, is_of_pair(&e.what), e)?;
    }
    Ok(text)
}
