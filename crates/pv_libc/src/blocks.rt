// Functions on ranges of bytes (7.24.2.1, 7.24.2.2, 7.24.4.1, 7.24.6.1).
ghost use Rattle.std.specs.Prelude.{◌≡◌, ◌+◌, [], ◌∷◌, ◌<◌, ◌≤◌, ◌^◌, ◌++◌, map, length};
ghost use Rattle.pv_inst.specs.Table.{IsMadeIn};
ghost use Rattle.pv_shadow.specs.Whole.{little_endian};
ghost use Rattle.pv_object.specs.Reaching.{IsReach};
ghost use Rattle.pv_object.specs.Later.{IsLater};
ghost use Rattle.pv_object.specs.Copying.{with_bytes};
ghost use Rattle.pv_object.specs.declared.values.Value.TheVariants as value;
ghost use Rattle.pv_libc.specs.declared.values.Reply.TheVariants as reply;
ghost use Rattle.pv_libc.specs.Blocks.{after_filling, share, plain_byte, copy, memset, memcmp, difference};
ghost use Rattle.pv_libc.specs.Characters.{characters_from};
ghost use Rattle.pv_libc.specs.Steps.{with_notes};
ghost use Rattle.pv_libc.specs.Answers.{OrNoMemory, worth};

use crate::characters::character_in;
use crate::known::plain_difference;
use crate::notes::reached;
use crate::strings::sign_of;
use crate::values::{Given, Note, Reply};
use pv_fault::{Clause, Reason};
use pv_num::IntKind;
use pv_object::{Asker, Memory, Reach, Scalar, Stop, Value, undefined};
use pv_prov::Prov;
use pv_shadow::Byte;
use std::alloc::Global;

/// A byte of this value.
pub(crate) fn plain_byte(v: u8) -> Byte
    ensures { result ≡ plain_byte v }
{
    Byte {
        value: Some(v),
        prov: Prov::Empty,
        index: None,
        mark: None,
    }
}

/// The place `i` bytes further on, within one that was reached.
#[tactic(auto, using(crate::proofs::Reaches::reach_bound, crate::proofs::Reaches::reach_offset))]
pub(crate) fn within(memory: &Memory, at: &Reach, i: u64) -> Reach
    requires { IsReach memory.now.table at.now (i + 1) }
    ensures { result ≡ record at.now { offset = at.now.offset + i; address = at.now.address + i } }
{
    memory.instances().well_formed();
    Reach {
        inst: at.inst,
        offset: at.offset + i,
        address: at.address + i,
        tried: at.tried,
    }
}

/// Gives the `n` bytes at a place that was reached a value.
#[tactic(auto, using(crate::proofs::Filling::all_filled))]
pub(crate) fn fill(memory: &mut Memory, at: &Reach, n: u64, v: u8)
    requires { IsReach memory.old.table at.now n }
    ensures { memory.new ≡ after_filling memory.old at.now.address n v }
{
    memory.fill_bytes(at, n, plain_byte(v));
}

/// Whether two ranges of `n` bytes share a byte.
pub(crate) fn share(a: u64, b: u64, n: u64) -> bool
    ensures { result ≡ share a b n }
{
    let n = u128::from(n);
    u128::from(a) < u128::from(b) + n && u128::from(b) < u128::from(a) + n
}

/// `memcpy` (7.24.2.1), for which the ranges share no byte, and `memmove` (7.24.2.2).
#[tactic(auto, using(pv_object::proofs::Later::made_later, pv_object::proofs::Later::reach_later, crate::proofs::Steps::or_stop))]
pub(crate) fn copy(
    memory: &mut Memory,
    notes: &mut Vec<Note>,
    apart: bool,
    to: Given,
    from: Given,
    n: u64,
) -> Result<Reply, Stop>
    requires target { IsMadeIn memory.old.table to.pointer.prov }
    requires source { IsMadeIn memory.old.table from.pointer.prov }
    ensures { OrNoMemory result (with_notes memory.new notes.new.items) (copy apart to from n (with_notes memory.old notes.old.items)) }
{
    let target = match reached(memory, notes, Asker::Text, true, to, n) {
        Ok(target) => target,
        Err(stop) => return Err(stop),
    };
    let source = match reached(memory, notes, Asker::Text, false, from, n) {
        Ok(source) => source,
        Err(stop) => return Err(stop),
    };
    if apart && share(to.pointer.address, from.pointer.address, n) {
        return match notes.push(to.stopped) {
            Ok(()) => Err(undefined(Clause::MemcpyOverlap, Reason::Overlap)),
            Err(_) => Err(Stop::NoMemory),
        };
    }
    memory.copy(&target, &source, n);
    Ok(Reply::Value(Value::Pointer(to.pointer)))
}

/// `memset` (7.24.6.1).
#[tactic(auto, using(crate::proofs::Steps::or_stop))]
pub(crate) fn memset(
    memory: &mut Memory,
    notes: &mut Vec<Note>,
    given: Given,
    c: i128,
    n: u64,
) -> Result<Reply, Stop>
    requires { IsMadeIn memory.old.table given.pointer.prov }
    ensures { OrNoMemory result (with_notes memory.new notes.new.items) (memset given c n (with_notes memory.old notes.old.items)) }
{
    match reached(memory, notes, Asker::Text, true, given, n) {
        Ok(at) => {
            fill(memory, &at, n, c.rem_euclid(256) as u8);
            Ok(Reply::Value(Value::Pointer(given.pointer)))
        }
        Err(stop) => Err(stop),
    }
}

/// The number of four characters, the least significant first, as this target stores it (6.2.6.1p2).
fn number_of_four(a: u8, b: u8, c: u8, d: u8) -> u64
    ensures digits { little_endian 4 result ≡ a ∷ b ∷ c ∷ d ∷ [] }
    ensures fits { result < 2 ^ 32 }
{
    let high = u64::from(c) + 256 * u64::from(d);
    u64::from(a) + 256 * u64::from(b) + 65536 * high
}

/// Makes the bytes at a place that was reached those of four characters, which are stored as one number.
fn put_four(memory: &mut Memory, at: &Reach, text: &[u8])
    requires four { length text.now ≡ 4 }
    requires reached { IsReach memory.old.table at.now 4 }
    ensures { memory.new ≡ with_bytes memory.old at.now.address (map plain_byte text.now) }
{
    let number = number_of_four(text[0], text[1], text[2], text[3]);
    let value = Value::Int(number as i128);
    memory.store(at, Scalar::Int(IntKind::UInt), &value, None);
}

/// Makes the bytes at a place that was reached those of four characters at most.
#[tactic(auto, using(crate::proofs::Putting::row_made))]
fn put_few(memory: &mut Memory, at: &Reach, text: &[u8])
    requires few { length text.now ≤ 4 }
    requires reached { IsReach memory.old.table at.now (length text.now) }
    ensures { memory.new ≡ with_bytes memory.old at.now.address (map plain_byte text.now) }
{
    if text.len() == 4 {
        return put_four(memory, at, text);
    }
    let mut bytes = [plain_byte(0); 4];
    for i in 0..text.len() {
        bytes[i] = plain_byte(text[i]);
    }
    memory.write_bytes(at, &bytes[..text.len()]);
}

/// Makes the bytes at a place that was reached those of a string, and a 0 behind it.
#[tactic(auto, using(crate::proofs::Reaches::reach_within))]
pub(crate) fn put(memory: &mut Memory, at: &Reach, text: &[u8])
    requires { IsReach memory.old.table at.now (length text.now + 1) }
    ensures { memory.new ≡ with_bytes memory.old at.now.address (map plain_byte (text.now ++ 0 ∷ [])) }
{
    let mut i = 0;
    while i < text.len() {
        let place = within(memory, at, i as u64);
        let few = (text.len() - i).min(4 - (place.address % 4) as usize);
        put_few(memory, &place, &text[i..i + few]);
        i += few;
    }
    let place = within(memory, at, text.len() as u64);
    memory.write_bytes(&place, &[plain_byte(0)]);
}

/// `n` characters in a row, at a place that was reached.
#[tactic(auto, using(crate::proofs::Reaches::reach_within, pv_object::proofs::Later::later_itself))]
fn characters(
    alloc: Global,
    memory: &mut Memory,
    notes: &mut Vec<Note>,
    given: Given,
    at: &Reach,
    n: u64,
) -> Result<Vec<u8>, Stop>
    requires { IsReach memory.old.table at.now n }
    ensures answer { OrNoMemory (worth (λ v. v.items) result) (with_notes memory.new notes.new.items) (characters_from n given at.now.address [] (with_notes memory.old notes.old.items)) }
    ensures later { IsLater memory.old.table memory.new.table }
{
    let mut read = Vec::new(alloc);
    for i in 0..n {
        let place = within(memory, at, i);
        match character_in(memory, notes, given, &place) {
            Ok(c) => {
                if read.push(c).is_err() {
                    return Err(Stop::NoMemory);
                }
            }
            Err(stop) => return Err(stop),
        }
    }
    Ok(read)
}

/// The sign of the first difference.
fn difference(left: &[u8], right: &[u8]) -> Reply
    ensures { result ≡ reply.Value (value.Int (difference left.now right.now)) }
{
    for i in 0..left.len() {
        if right.len() <= i {
            break;
        }
        if left[i] != right[i] {
            return sign_of(left[i], right[i]);
        }
    }
    Reply::Value(Value::Int(0))
}

/// `memcmp` (7.24.4.1).
#[tactic(auto, using(pv_object::proofs::Later::made_later, pv_object::proofs::Later::reach_later, crate::proofs::Steps::or_stop))]
pub(crate) fn memcmp(
    alloc: Global,
    memory: &mut Memory,
    notes: &mut Vec<Note>,
    p: Given,
    q: Given,
    n: u64,
) -> Result<Reply, Stop>
    requires left { IsMadeIn memory.old.table p.pointer.prov }
    requires right { IsMadeIn memory.old.table q.pointer.prov }
    ensures { OrNoMemory result (with_notes memory.new notes.new.items) (memcmp p q n (with_notes memory.old notes.old.items)) }
{
    let left = match reached(memory, notes, Asker::Text, false, p, n) {
        Ok(left) => left,
        Err(stop) => return Err(stop),
    };
    let right = match reached(memory, notes, Asker::Text, false, q, n) {
        Ok(right) => right,
        Err(stop) => return Err(stop),
    };
    memory.instances().well_formed();
    if let Some(reply) = plain_difference(memory, left.address, right.address, n) {
        return Ok(reply);
    }
    let first = match characters(alloc, memory, notes, p, &left, n) {
        Ok(first) => first,
        Err(stop) => return Err(stop),
    };
    match characters(alloc, memory, notes, q, &right, n) {
        Ok(second) => Ok(difference(&first, &second)),
        Err(stop) => Err(stop),
    }
}
