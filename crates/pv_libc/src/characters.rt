// Characters as the library reads them: checked one by one, and what a read exposes is noted at once.
ghost use Rattle.std.specs.Prelude.{◌≡◌, ◌<◌, length, IfOk};
ghost use Rattle.pv_inst.specs.Table.{IsMadeIn};
ghost use Rattle.pv_object.specs.Reaching.{IsReach};
ghost use Rattle.pv_object.specs.Later.{IsLater};
ghost use Rattle.pv_libc.specs.Steps.{bytes_further, with_notes};
ghost use Rattle.pv_libc.specs.Answers.{OrNoMemory, worth};
ghost use Rattle.pv_libc.specs.Characters.{character_in, character_at, most, string_at};

use crate::known::plain_string;
use crate::notes::{note_exposed, reached};
use crate::values::{Given, Note};
use pv_fault::{Reason, Verdict};
use pv_num::IntKind;
use pv_object::{Asker, Memory, Pointer, Reach, Scalar, Stop, Value, clause_of, undefined};
use std::alloc::Global;

/// How many bytes an instance has at most.
#[tactic(auto, unfolding(crate::specs::Characters::most))]
pub(crate) fn most() -> u64
    ensures { result ≡ most }
{
    0x100_0000
}

/// The character at a place that was reached.
#[tactic(auto, using(pv_object::proofs::Later::later_both, crate::proofs::Steps::or_is))]
pub(crate) fn character_in(
    memory: &mut Memory,
    notes: &mut Vec<Note>,
    given: Given,
    at: &Reach,
) -> Result<u8, Stop>
    requires { IsReach memory.old.table at.now 1 }
    ensures answer { OrNoMemory result (with_notes memory.new notes.new.items) (character_in given at.now.address (with_notes memory.old notes.old.items)) }
    ensures later { IsLater memory.old.table memory.new.table }
{
    let loaded = memory.load(at, Scalar::Int(IntKind::UChar));
    if note_exposed(memory, notes).is_err() {
        return Err(Stop::NoMemory);
    }
    match loaded {
        Ok((Value::Int(n), _)) => Ok(n as u8),
        Ok((Value::Unset | Value::Pointer(_), _)) => match notes.push(given.stopped) {
            Ok(()) => Err(Stop::Ends(Verdict::Indeterminate)),
            Err(_) => Err(Stop::NoMemory),
        },
        Err(stop) => match notes.push(given.stopped) {
            Ok(()) => Err(stop),
            Err(_) => Err(Stop::NoMemory),
        },
    }
}

/// The pointer so many bytes further on.
#[inline(always)]
pub(crate) fn further(given: Given, i: u64) -> Given
    ensures { result ≡ bytes_further given i }
{
    Given {
        pointer: Pointer {
            address: given.pointer.address.saturating_add(i),
            prov: given.pointer.prov,
        },
        stopped: given.stopped,
    }
}

/// The character so many bytes further on, checked and read.
#[tactic(auto, using(pv_object::proofs::Later::later_both))]
pub(crate) fn character_at(
    memory: &mut Memory,
    notes: &mut Vec<Note>,
    by: Asker,
    given: Given,
    i: u64,
) -> Result<u8, Stop>
    requires { IsMadeIn memory.old.table given.pointer.prov }
    ensures answer { OrNoMemory result (with_notes memory.new notes.new.items) (character_at by given i (with_notes memory.old notes.old.items)) }
    ensures later { IsLater memory.old.table memory.new.table }
{
    match reached(memory, notes, by, false, further(given, i), 1) {
        Ok(at) => character_in(memory, notes, given, &at),
        Err(stop) => Err(stop),
    }
}

/// The characters of a string before its first 0.
#[tactic(auto, using(pv_object::proofs::Later::later_itself))]
pub(crate) fn string_at(
    alloc: Global,
    memory: &mut Memory,
    notes: &mut Vec<Note>,
    by: Asker,
    given: Given,
) -> Result<Vec<u8>, Stop>
    requires { IsMadeIn memory.old.table given.pointer.prov }
    ensures answer { OrNoMemory (worth (λ v. v.items) result) (with_notes memory.new notes.new.items) (string_at by given (with_notes memory.old notes.old.items)) }
    ensures later { IsLater memory.old.table memory.new.table }
    ensures few { IfOk result (λ v. length v.items < most) }
{
    match plain_string(alloc, memory, given) {
        Some(text) => Ok(text),
        None => string_singly(alloc, memory, notes, by, given),
    }
}

/// The same, checked and read one by one.
#[tactic(auto, using(pv_object::proofs::Later::made_later, pv_object::proofs::Later::later_both, pv_object::proofs::Later::later_itself))]
fn string_singly(
    alloc: Global,
    memory: &mut Memory,
    notes: &mut Vec<Note>,
    by: Asker,
    given: Given,
) -> Result<Vec<u8>, Stop>
    requires { IsMadeIn memory.old.table given.pointer.prov }
    ensures answer { OrNoMemory (worth (λ v. v.items) result) (with_notes memory.new notes.new.items) (string_at by given (with_notes memory.old notes.old.items)) }
    ensures later { IsLater memory.old.table memory.new.table }
    ensures few { IfOk result (λ v. length v.items < most) }
{
    let mut read = Vec::new(alloc);
    for i in 0..most() {
        match character_at(memory, notes, by, given, i) {
            Ok(0) => return Ok(read),
            Ok(c) => {
                if read.push(c).is_err() {
                    return Err(Stop::NoMemory);
                }
            }
            Err(stop) => return Err(stop),
        }
    }
    match notes.push(given.stopped) {
        Ok(()) => Err(undefined(clause_of(by), Reason::Outside)),
        Err(_) => Err(Stop::NoMemory),
    }
}
