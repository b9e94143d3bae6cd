//! The seats of a hall.
ghost use Rattle.std.specs.Prelude.{◌≡◌, map, IfOk, OnOk};
ghost use Rattle.std.specs.List.{filter, AllZip};
ghost use Rattle.pv_watch.specs.Slots.{slot, slots, watcher, After, SayAll, kind_number, is_kept};
ghost use Rattle.pv_watch.specs.Adding.{Adds};

use crate::NoMemory;
use crate::event::Event;
use crate::watch::{Attend, Watch};
use pv_script::Names;
use std::alloc::{AllocError, Global};

/// A watcher, or what one that has seen enough has left.
#[derive(Drop)]
pub(crate) enum Seat<W> {
    In(W),
    Out { kind: u8, text: Vec<u8> },
}

fn all_in<W: Drop>(alloc: Global, watchers: Vec<W>) -> Result<Vec<Seat<W>>, AllocError>
    ensures { IfOk result (λ v. v.items ≡ map (λ w. Seat.In w) watchers.items) }
{
    watchers.into_iter().map(|w| Seat::In(w)).collect(alloc)
}

/// A seat for each watcher.
pub(crate) fn seated<W: Watch>(alloc: Global, watchers: Vec<W>) -> Result<Vec<Seat<W>>, AllocError>
    ensures { IfOk result (λ v. slots (watcher W.its_kind W.its_wants W.seen) v.items ≡ map (watcher W.its_kind W.its_wants W.seen) watchers.items) }
{
    let seats = all_in(alloc, watchers)?;
    Ok(seats)
}

fn kind_at<W: Watch>(seat: &Seat<W>) -> u8
    ensures { result ≡ kind_number (slot (watcher W.its_kind W.its_wants W.seen) seat.now) }
{
    match seat {
        Seat::In(watcher) => watcher.kind(),
        Seat::Out { kind, .. } => *kind,
    }
}

/// Drops the watchers of other kinds.
pub(crate) fn keep_kinds<W: Watch>(seats: &mut Vec<Seat<W>>, kinds: &[u8])
    ensures { slots (watcher W.its_kind W.its_wants W.seen) seats.new.items ≡ filter (is_kept kinds.now) (slots (watcher W.its_kind W.its_wants W.seen) seats.old.items) }
{
    seats.retain(
        |seat: &Seat<W>| -> bool
            ensures { result ≡ is_kept kinds.entry.now (slot (watcher W.its_kind W.its_wants W.seen) seat.now) }
        { kinds.contains(&kind_at(seat)) },
    );
}

/// Tells one seat.
fn tell_one<W: Watch>(
    alloc: Global,
    seat: &mut Seat<W>,
    e: &Event,
    names: &Names,
) -> Result<(), NoMemory>
    ensures { OnOk result (After e.now names.now (slot (watcher W.its_kind W.its_wants W.seen) seat.old) (slot (watcher W.its_kind W.its_wants W.seen) seat.new)) }
{
    let Seat::In(watcher) = seat else {
        return Ok(());
    };
    match watcher.see(e) {
        Attend::More => Ok(()),
        Attend::NoMemory => Err(NoMemory),
        Attend::Enough => {
            let kind = watcher.kind();
            let text = watcher.text(alloc, names)?;
            *seat = Seat::Out { kind, text };
            Ok(())
        }
    }
}

/// Tells all seats.
pub(crate) fn tell_each<W: Watch>(
    alloc: Global,
    seats: &mut [Seat<W>],
    e: &Event,
    names: &Names,
) -> Result<(), NoMemory>
    ensures { OnOk result (AllZip (After e.now names.now) (slots (watcher W.its_kind W.its_wants W.seen) seats.old) (slots (watcher W.its_kind W.its_wants W.seen) seats.new)) }
{
    for seat in seats.iter_mut() {
        tell_one(alloc, seat, e, names)?;
    }
    Ok(())
}

/// Adds the text of one seat.
fn add_text<W: Watch>(
    alloc: Global,
    all: &mut Vec<u8>,
    seat: &Seat<W>,
    names: &Names,
) -> Result<(), NoMemory>
    ensures { OnOk result (Adds names.now (slot (watcher W.its_kind W.its_wants W.seen) seat.now) all.old.items all.new.items) }
{
    match seat {
        Seat::In(watcher) => {
            let text = watcher.text(alloc, names)?;
            all.extend_from_slice(&text)?;
        }
        Seat::Out { text, .. } => all.extend_from_slice(text.as_slice())?,
    }
    Ok(())
}

/// The texts of all seats, in order.
pub(crate) fn texts_of<W: Watch>(
    alloc: Global,
    seats: &[Seat<W>],
    names: &Names,
) -> Result<Vec<u8>, NoMemory>
    ensures { IfOk result (λ v. SayAll names.now (slots (watcher W.its_kind W.its_wants W.seen) seats.now) v.items) }
{
    let mut all = Vec::new(alloc);
    for seat in seats {
        add_text(alloc, &mut all, seat, names)?;
    }
    Ok(all)
}
