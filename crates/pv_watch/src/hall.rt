//! The hall.
ghost use Rattle.std.specs.Prelude.{◌≡◌, map, IfOk, OnOk};
ghost use Rattle.std.specs.List.{filter, AllZip};
ghost use Rattle.pv_watch.specs.Slots.{watcher, After, SayAll, is_kept};
ghost use Rattle.pv_watch.specs.Halls.{slots_in};

use crate::NoMemory;
use crate::event::Event;
use crate::seats::{Seat, keep_kinds, seated, tell_each, texts_of};
use crate::watch::Watch;
use pv_script::Names;
use std::alloc::Global;

/// Watchers in a list, seen as a list of slots: a watcher that is present, or the text of one that has seen enough.
#[derive(Drop)]
pub struct Hall {
    alloc: Global,
    seats: Vec<Seat<Box<dyn Watch>>>,
}

impl Hall {
    /// All of them are present, in the order of the list.
    pub fn new(alloc: Global, watchers: Vec<Box<dyn Watch>>) -> Result<Hall, NoMemory>
        ensures { IfOk result (λ h. slots_in (watcher its_kind its_wants seen) h ≡ map (watcher its_kind its_wants seen) watchers.items) }
    {
        let seats = seated(alloc, watchers)?;
        Ok(Hall { alloc, seats })
    }

    /// Drops those of other kinds. It takes no memory.
    pub fn keep(&mut self, kinds: &[u8])
        ensures { slots_in (watcher its_kind its_wants seen) self.new ≡ filter (is_kept kinds.now) (slots_in (watcher its_kind its_wants seen) self.old) }
    {
        keep_kinds(&mut self.seats, kinds);
    }

    /// Tells all that are present. One that has seen enough leaves its text, with these names.
    ///
    /// After `NoMemory` some have seen the event and others not, and the hall is not used again.
    pub fn tell(&mut self, e: &Event, names: &Names) -> Result<(), NoMemory>
        ensures { OnOk result (AllZip (After e.now names.now) (slots_in (watcher its_kind its_wants seen) self.old) (slots_in (watcher its_kind its_wants seen) self.new)) }
    {
        tell_each(self.alloc, self.seats.as_mut_slice(), e, names)
    }

    /// The texts of all in the order of the list, those that have left included.
    pub fn texts(&self, names: &Names) -> Result<Vec<u8>, NoMemory>
        ensures { IfOk result (λ v. SayAll names.now (slots_in (watcher its_kind its_wants seen) self.now) v.items) }
    {
        texts_of(self.alloc, self.seats.as_slice(), names)
    }
}
