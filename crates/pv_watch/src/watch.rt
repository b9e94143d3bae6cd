//! Who watches a run.
ghost use Rattle.std.specs.Prelude.{◌≡◌, ◌<◌, IfOk};

use crate::NoMemory;
use crate::event::Event;
use pv_script::Names;
use std::alloc::Global;

/// What a watcher answers to an event.
#[derive(Clone, Copy, Debug, PartialEq, Eq)]
pub enum Attend {
    /// It has seen the event, and wants more.
    More,
    /// It has seen the event, and has as many now as it wants.
    Enough,
    /// Memory ran out; it has not seen the event.
    NoMemory,
}

/// A watcher: it means the list of the events that it has seen, its kind, which says its text, and how many it wants to see.
///
/// The numbers 1 to 4 are given: a watcher of one of them has the text of the story, the census, the pairs or the journal,
/// whatever text its kind brings. A watcher of any other number has a text of its own.
pub trait Watch: Drop {
    ghost use Rattle.std.specs.Prelude.{ℕ, List};
    ghost use Rattle.pv_watch.specs.declared.event.Event.{Event};
    ghost use Rattle.pv_watch.specs.Seen.{Kind};
    ghost use Rattle.pv_watch.specs.Kinds.{IsText};
    ghost use Rattle.pv_watch.specs.Adding.{Sees};

    /// The events that it has seen, in order.
    ghost seen: { Self → List Event };

    /// Its kind: the number by which it is asked for, and its text, by what it has seen.
    ghost its_kind: { Self → Kind };

    /// How many events it wants to see.
    ghost its_wants: { Self → ℕ };

    /// The number of its kind.
    fn kind(&self) -> u8
        ensures { result ≡ (its_kind self.now).number };

    /// How many events it wants to see.
    fn wants(&self) -> u64
        ensures value { result ≡ its_wants self.now }
        ensures some { 0 < result };

    /// Shows it the next event.
    fn see(&mut self, e: &Event) -> Attend
        ensures kind { its_kind self.new ≡ its_kind self.old }
        ensures wants { its_wants self.new ≡ its_wants self.old }
        ensures seen { Sees (seen self.old) (seen self.new) (its_wants self.old) e.now result };

    /// Its text, where names have these texts.
    fn text(&self, alloc: Global, names: &Names) -> Result<Vec<u8>, NoMemory>
        ensures { IfOk result (λ v. IsText (its_kind self.now) (its_wants self.now) (seen self.now) names.now v.items) };
}

impl Watch for Box<dyn Watch> {
    ghost seen = { λ b. (Watch-box b).seen b.value };

    ghost its_kind = { λ b. (Watch-box b).its_kind b.value };

    ghost its_wants = { λ b. (Watch-box b).its_wants b.value };

    fn kind(&self) -> u8 {
        (**self).kind()
    }

    fn wants(&self) -> u64 {
        (**self).wants()
    }

    fn see(&mut self, e: &Event) -> Attend {
        (**self).see(e)
    }

    fn text(&self, alloc: Global, names: &Names) -> Result<Vec<u8>, NoMemory> {
        (**self).text(alloc, names)
    }
}
