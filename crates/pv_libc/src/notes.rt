// What is noted of a call: uses of names that stood for two, exposures, and the pointer whose check stops it.
ghost use Rattle.std.specs.Prelude.{◌≡◌, ◌∷◌, [], ◌++◌, Ok, OnOk, IfOk};
ghost use Rattle.pv_inst.specs.Table.{IsMadeIn};
ghost use Rattle.pv_inst.specs.Use.{test_number};
ghost use Rattle.pv_object.specs.Reaching.{IsReach};
ghost use Rattle.pv_object.specs.Later.{IsLater};
ghost use Rattle.pv_libc.specs.Steps.{use_notes, with_exposures, reach_for, with_notes};
ghost use Rattle.pv_libc.specs.Answers.{OrNoMemory, StopsSo};

use crate::values::{Given, Note};
use pv_inst::{Test, Tried};
use pv_object::{Asker, Memory, Reach, Stop, Stopped};
use pv_prov::NoMemory;

/// Notes what a use by this test found, where its name stood for two.
pub(crate) fn note_use(notes: &mut Vec<Note>, test: Test, tried: Tried) -> Result<(), NoMemory>
    ensures { OnOk result (notes.new.items ≡ notes.old.items ++ use_notes (Ok tried) (test_number test)) }
{
    if tried.pair.is_none() {
        return Ok(());
    }
    match notes.push(Note::Used {
        tried,
        test: test.number(),
    }) {
        Ok(()) => Ok(()),
        Err(_) => Err(NoMemory),
    }
}

/// The call stops: what the use before found by this test is noted, and last this.
pub(crate) fn stopped_after(notes: &mut Vec<Note>, test: Test, by: Stopped, last: Note) -> Stop
    ensures { StopsSo result notes.new.items by.stop (notes.old.items ++ use_notes (Ok by.tried) (test_number test) ++ last ∷ []) }
{
    if note_use(notes, test, by.tried).is_err() {
        return Stop::NoMemory;
    }
    match notes.push(last) {
        Ok(()) => by.stop,
        Err(_) => Stop::NoMemory,
    }
}

/// Notes what became exposed.
pub(crate) fn note_exposed(memory: &mut Memory, notes: &mut Vec<Note>) -> Result<(), NoMemory>
    ensures state { OnOk result (with_notes memory.new notes.new.items ≡ with_exposures (with_notes memory.old notes.old.items)) }
    ensures later { IsLater memory.old.table memory.new.table }
{
    while let Some(i) = memory.next_exposed() {
        if notes.push(Note::Exposed(i)).is_err() {
            return Err(NoMemory);
        }
    }
    Ok(())
}

/// The checks of an access to `n` bytes.
#[tactic(auto, using(crate::proofs::Steps::or_is, crate::proofs::Used::noted_next))]
pub(crate) fn reached(
    memory: &mut Memory,
    notes: &mut Vec<Note>,
    by: Asker,
    write: bool,
    given: Given,
    n: u64,
) -> Result<Reach, Stop>
    requires { IsMadeIn memory.old.table given.pointer.prov }
    ensures answer { OrNoMemory result (with_notes memory.new notes.new.items) (reach_for by write given n (with_notes memory.old notes.old.items)) }
    ensures later { IsLater memory.old.table memory.new.table }
    ensures within { IfOk result (λ r. IsReach memory.new.table r n) }
{
    let p = given.pointer;
    let test = Test::Range {
        address: p.address,
        size: n,
    };
    match memory.reach(p, n, 1, write, by) {
        Ok(at) => match note_use(notes, test, at.tried) {
            Ok(()) => Ok(at),
            Err(NoMemory) => Err(Stop::NoMemory),
        },
        Err(stopped) => Err(stopped_after(notes, test, stopped, given.stopped)),
    }
}
