// What the outside of a run sees of it: bytes that are printed, and events. Both leave the run while it goes on, so that a run
// keeps no more of them than what one library call makes.
ghost use Rattle.std.specs.Prelude.{◌≡◌, ◌+◌, ◌<◌, ◌≤◌, length, drop, IfOk, OnOk, OnErr, map};
ghost use Rattle.pv_script.specs.Outside.{Gains, GainsPrefix};
ghost use Rattle.pv_script.specs.Transfers.{HasCause};
ghost use Rattle.pv_typed.specs.Known.{Each};
ghost use Rattle.pv_watch.specs.Slots.{Told};
ghost use Rattle.pv_eval.specs.Runnable.{IsRunnable};
ghost use Rattle.pv_exec.specs.Answering.{outlet};
ghost use Rattle.pv_watch.specs.Halls.{hall_slots};
ghost use Rattle.pv_exec.specs.Outlets.{event_of};
ghost use Rattle.pv_exec.specs.Streaming.{FirstWritten, BlockPart, HasWritten, FirstTold, IsFar, HasTold, DeliveredOr, DeliveryCause, failing, Finished, FinishedTold};
ghost use Rattle.pv_exec.specs.Words.{FitsWords};

use crate::words::fits_words;
use pv_eval::{Machine, Marked};
use pv_script::{Failed, Sink, write_all};
use pv_typed::TypedUnit;
use pv_watch::{Hall, NoMemory, Watch};

/// Why what a run prints and tells can't be delivered.
#[derive(Clone, Copy)]
pub enum Undelivered {
    /// Memory ran out.
    NoMemory,
    /// A write of what is printed failed.
    WriteFault,
}

// Takes the first elements off a list.
fn take_off<T: Drop>(list: &mut Vec<T>, count: usize)
    requires { count ≤ length list.old.items }
    ensures { list.new.items ≡ drop count list.old.items }
{
    let rest = list.len() - count;
    list.rotate_left(count);
    list.truncate(rest);
}

// Writes 4096 bytes, and again while as many are left: how many were written.
fn write_blocks<O: Sink>(kept: &[u8], out: &mut O) -> Result<usize, Failed>
    ensures ok { IfOk result (λ n. FirstWritten n kept.now (O.written out.old) (O.written out.new)) }
    ensures few { IfOk result (λ n. length kept.now < n + 4096) }
    ensures err { OnErr result (BlockPart (O.written out.old) (O.written out.new) kept.now) }
    ensures cause { HasCause (O.faults out.old) (O.faults out.new) result }
{
    let mut at = 0;
    'writes: while kept.len() - at >= 4096 {
        write_all(out, &kept[at..at + 4096])?;
        at += 4096;
    }
    Ok(at)
}

// The same of what a run has printed, which does not keep what was written.
#[inline(always)]
fn write_kept<O: Sink>(machine: &mut Machine, out: &mut O) -> Result<usize, Failed>
    ensures ok { IfOk result (λ n. HasWritten n (O.written out.old) (O.written out.new) machine.old machine.new) }
    ensures err { OnErr result (BlockPart (O.written out.old) (O.written out.new) machine.old.moment.printed) }
    ensures cause { HasCause (O.faults out.old) (O.faults out.new) result }
{
    let n = write_blocks(machine.printed().as_slice(), out)?;
    if n > 0 {
        take_off(machine.printed(), n);
    }
    Ok(n)
}

// Tells these events in order, up to one whose mark is more than 4095 above the bytes that were written: how many were told.
fn tell_near(
    unit: &TypedUnit,
    events: &[Marked],
    written: u64,
    hall: &mut Hall,
) -> Result<usize, NoMemory>
    requires runnable { IsRunnable unit.now }
    ensures told { IfOk result (λ n. FirstTold n events.now written (hall_slots hall.old its_kind its_wants seen) (hall_slots hall.new its_kind its_wants seen) unit.now.names) }
    ensures far { IfOk result (λ n. IsFar written (drop n events.now)) }
{
    let most = written.saturating_add(4095);
    let mut i = 0;
    'events: while i < events.len() {
        fits_words(&events[i]);
        if events[i].mark > most {
            return Ok(i);
        }
        hall.tell(&events[i].event, unit.names())?;
        i += 1;
    }
    Ok(i)
}

// The same of the events that wait, which do not wait any more.
fn tell_waiting(
    unit: &TypedUnit,
    machine: &mut Machine,
    written: u64,
    hall: &mut Hall,
) -> Result<(), NoMemory>
    requires runnable { IsRunnable unit.now }
    ensures { OnOk result (HasTold written (hall_slots hall.old its_kind its_wants seen) (hall_slots hall.new its_kind its_wants seen) unit.now.names machine.old machine.new) }
{
    let n = tell_near(unit, machine.waiting().as_slice(), written, hall)?;
    if n > 0 {
        take_off(machine.waiting(), n);
    }
    Ok(())
}

/// While 4096 bytes or more are kept of what is printed, the first 4096 are written. Then the events that wait are told.
///
/// So fewer than 4096 bytes are kept afterwards, and no event waits that came within the 4095 bytes behind those that were written.
/// The count is that of the bytes written so far, or less where it is greater than a number can be.
pub fn deliver<O: Sink>(
    unit: &TypedUnit,
    machine: &mut Machine,
    written: &mut u64,
    out: &mut O,
    hall: &mut Hall,
) -> Result<(), Undelivered>
    requires runnable { IsRunnable unit.now }
    ensures delivered { DeliveredOr (failing result) (outlet (O.written out.old) hall.old its_kind its_wants seen) (outlet (O.written out.new) hall.new its_kind its_wants seen)
        unit.now.names written.old written.new machine.old machine.new }
    ensures cause { DeliveryCause (failing result) (O.faults out.old) (O.faults out.new) }
{
    if machine.is_quiet() {
        return Ok(());
    }
    match write_kept(machine, out) {
        Ok(n) => *written = written.saturating_add(n as u64),
        Err(_) => return Err(Undelivered::WriteFault),
    }
    match tell_waiting(unit, machine, *written, hall) {
        Ok(()) => Ok(()),
        Err(_) => Err(Undelivered::NoMemory),
    }
}

// Tells these events, in order.
fn tell(unit: &TypedUnit, events: &[Marked], hall: &mut Hall) -> Result<(), NoMemory>
    requires runnable { IsRunnable unit.now }
    ensures words { OnOk result (Each FitsWords events.now) }
    ensures told { OnOk result (Told (hall_slots hall.old its_kind its_wants seen) (map event_of events.now) unit.now.names (hall_slots hall.new its_kind its_wants seen)) }
{
    let mut i = 0;
    'events: while i < events.len() {
        fits_words(&events[i]);
        hall.tell(&events[i].event, unit.names())?;
        i += 1;
    }
    Ok(())
}

// All that is kept of what is printed is written.
fn write_rest<O: Sink>(machine: &mut Machine, out: &mut O) -> Result<(), Failed>
    ensures ok { OnOk result (Gains (O.written out.old) (O.written out.new) machine.old.moment.printed) }
    ensures err { OnErr result (GainsPrefix (O.written out.old) (O.written out.new) machine.old.moment.printed) }
    ensures cause { HasCause (O.faults out.old) (O.faults out.new) result }
    ensures waiting { OnOk result (machine.new.moment.waiting ≡ machine.old.moment.waiting) }
    ensures world { OnOk result (machine.new.moment.world ≡ machine.old.moment.world) }
{
    write_kept(machine, out)?;
    write_all(out, machine.printed().as_slice())
}

/// A run is over: what is left of its output is written, and of its events told.
pub fn finish<O: Sink>(
    unit: &TypedUnit,
    machine: &mut Machine,
    out: &mut O,
    hall: &mut Hall,
) -> Result<(), Undelivered>
    requires runnable { IsRunnable unit.now }
    ensures written { Finished (failing result) (O.written out.old) (O.written out.new) machine.old.moment.printed }
    ensures words { OnOk result (Each FitsWords machine.old.moment.waiting) }
    ensures told { FinishedTold (failing result) (hall_slots hall.old its_kind its_wants seen) (hall_slots hall.new its_kind its_wants seen) (map event_of machine.old.moment.waiting) unit.now.names }
    ensures cause { DeliveryCause (failing result) (O.faults out.old) (O.faults out.new) }
    ensures world { OnOk result (machine.new.moment.world ≡ machine.old.moment.world) }
{
    match write_rest(machine, out) {
        Ok(()) => {}
        Err(_) => return Err(Undelivered::WriteFault),
    }
    match tell(unit, machine.waiting().as_slice(), hall) {
        Ok(()) => Ok(()),
        Err(_) => Err(Undelivered::NoMemory),
    }
}
