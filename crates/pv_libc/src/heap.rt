// Memory management functions (7.22.3).
ghost use Rattle.std.specs.Prelude.{◌≡◌, ℕ, ◌<◌, [], ◌∷◌, ◌++◌, length, codes, IfOk, OnOk};
ghost use Rattle.pv_script.specs.Names.{name_at as text_of};
ghost use Rattle.pv_inst.specs.Table.{IsMadeIn};
ghost use Rattle.pv_inst.specs.Answers.{IsLive};
ghost use Rattle.pv_inst.specs.Use.{empty_use, use_answer, after_use};
ghost use Rattle.pv_inst.specs.declared.values.Test.TheVariants.{Block};
ghost use Rattle.pv_object.specs.Memory.{with_table};
ghost use Rattle.pv_object.specs.Creating.{without};
ghost use Rattle.pv_libc.specs.declared.values.Note.TheVariants.{Ended};
ghost use Rattle.pv_object.specs.Access.{first_survivor};
ghost use Rattle.pv_libc.specs.Steps.{with_notes};
ghost use Rattle.pv_libc.specs.Answers.{OrNoMemory, worth};
ghost use Rattle.pv_object.specs.Answers.{without_use, tried_in, survivors};
ghost use Rattle.pv_libc.specs.Heap.{told_of, block_stop, block_answer, pointer_to, request_of_bytes, block, malloc, calloc, free, realloc, resize_of, after_block_copy};

use crate::blocks::fill;
use crate::notes::{note_use, stopped_after};
use crate::values::{Given, Note, Reply};
use pv_fault::{Clause, Reason};
use pv_inst::{CreateError, Info, Kind, Miss, Test, Tried};
use pv_object::{Memory, Pointer, Reach, Stop, Stopped, UNTRIED, Value, undefined};
use pv_prov::{NoMemory, Prov, Stands};
use pv_script::Names;

/// The null pointer.
const NULL: Value = Value::Pointer(Pointer {
    address: 0,
    prov: Prov::Empty,
});

/// The number of the name `@heap`.
const HEAP: u32 = 1;

/// A pointer to the first byte of an allocation.
fn pointer_to(memory: &Memory, i: u64) -> Reply
    ensures { result ≡ pointer_to memory.now i }
{
    let address = match memory.instances().info(i) {
        Some(x) => x.base,
        None => 0,
    };
    Reply::Value(Value::Pointer(Pointer {
        address,
        prov: Prov::Inst(i),
    }))
}

/// The number of a new allocation, or else what the call replies. No instance ends.
#[tactic(auto, using(crate::proofs::Kept::created_live))]
fn requested(
    memory: &mut Memory,
    notes: &mut Vec<Note>,
    names: &Names,
    size: u64,
) -> Result<Result<u64, Reply>, Stop>
    requires named { 1 < length names.now }
    requires heap { text_of names.now 1 ≡ codes "@heap" }
    ensures answer { OrNoMemory result (with_notes memory.new notes.new.items) (request_of_bytes size (with_notes memory.old notes.old.items)) }
    ensures kept { OnOk result ((k : ℕ) → IsLive memory.old.table.instances k → IsLive memory.new.table.instances k) }
{
    if size == 0 {
        return Ok(Err(Reply::Value(NULL)));
    }
    match memory.create(names, HEAP, size, 16, Kind::Heap) {
        Ok(i) => match notes.push(Note::Made(i)) {
            Ok(()) => Ok(Ok(i)),
            Err(_) => Err(Stop::NoMemory),
        },
        Err(CreateError::Denied) => Ok(Err(Reply::Value(NULL))),
        Err(CreateError::NoMemory) => Err(Stop::NoMemory),
        Err(other) => Ok(Err(Reply::Placement(other))),
    }
}

/// `malloc` (7.22.3.4).
#[tactic(auto, using(crate::proofs::Steps::or_stop))]
pub(crate) fn malloc(
    memory: &mut Memory,
    notes: &mut Vec<Note>,
    names: &Names,
    size: u64,
) -> Result<Reply, Stop>
    requires named { 1 < length names.now }
    requires heap { text_of names.now 1 ≡ codes "@heap" }
    ensures { OrNoMemory result (with_notes memory.new notes.new.items) (malloc size (with_notes memory.old notes.old.items)) }
{
    match requested(memory, notes, names, size) {
        Ok(Ok(i)) => Ok(pointer_to(memory, i)),
        Ok(Err(reply)) => Ok(reply),
        Err(stop) => Err(stop),
    }
}

/// `calloc` (7.22.3.2).
#[tactic(auto, using(crate::proofs::Reaches::whole_reach, crate::proofs::Steps::or_stop))]
pub(crate) fn calloc(
    memory: &mut Memory,
    notes: &mut Vec<Note>,
    names: &Names,
    count: u64,
    size: u64,
) -> Result<Reply, Stop>
    requires named { 1 < length names.now }
    requires heap { text_of names.now 1 ≡ codes "@heap" }
    ensures { OrNoMemory result (with_notes memory.new notes.new.items) (calloc count size (with_notes memory.old notes.old.items)) }
{
    match requested(memory, notes, names, count.saturating_mul(size)) {
        Ok(Ok(i)) => {
            let reply = pointer_to(memory, i);
            if let Some(x) = memory.instances().info(i) {
                fill(memory, &whole(i, x), x.size, 0);
            }
            Ok(reply)
        }
        Ok(Err(reply)) => Ok(reply),
        Err(stop) => Err(stop),
    }
}

/// The whole of an instance, as a place.
pub(crate) fn whole(i: u64, x: Info) -> Reach
    ensures { result ≡ record { inst = i; offset = 0; address = x.base; tried = empty_use } }
{
    Reach {
        inst: i,
        offset: 0,
        address: x.base,
        tried: UNTRIED,
    }
}

/// Why a pointer is none to an allocation that is live.
fn block_stop(clause: Clause, miss: Miss) -> Stop
    ensures { result ≡ block_stop clause miss }
{
    match miss {
        Miss::Ended => undefined(clause, Reason::Ended),
        Miss::Empty => undefined(clause, Reason::Empty),
        Miss::Outside | Miss::Block | Miss::Apart | Miss::Undecided => {
            undefined(clause, Reason::Block)
        }
    }
}

/// Of the survivors the low one.
fn chosen(stands: Stands, tried: Tried) -> Option<u64>
    ensures { result ≡ first_survivor stands tried }
{
    if tried.low { stands.low } else { stands.high }
}

/// The allocation that a pointer to its first byte means.
#[tactic(auto, using(crate::proofs::Reaches::told_live))]
fn block(memory: &mut Memory, clause: Clause, p: Pointer) -> Result<(u64, Tried), Stopped>
    requires { IsMadeIn memory.old.table p.prov }
    ensures answer { worth (λ r. r.0) (without_use result) ≡ block_answer clause memory.old p (use_answer memory.old.table p.prov (Block p.address)) }
    ensures tried { tried_in (λ r. r.1) result ≡ survivors (use_answer memory.old.table p.prov (Block p.address)) }
    ensures state { memory.new ≡ with_table memory.old (after_use memory.old.table p.prov (use_answer memory.old.table p.prov (Block p.address))) }
    ensures live { IfOk result (λ r. IsLive memory.new.table.instances r.0) }
{
    let stands = memory.instances().stands(p.prov);
    let tried = match memory.block(p) {
        Ok(tried) => tried,
        Err(miss) => {
            let stop = block_stop(clause, miss);
            return Err(Stopped {
                stop,
                tried: UNTRIED,
            });
        }
    };
    let stop = undefined(clause, Reason::Block);
    let Some(i) = chosen(stands, tried) else {
        return Err(Stopped { stop, tried });
    };
    match memory.instances().info(i) {
        Some(_) => Ok((i, tried)),
        None => Err(Stopped { stop, tried }),
    }
}

/// The same, with the note of its use.
#[tactic(auto, using(crate::proofs::Steps::or_is, crate::proofs::Used::noted_next))]
fn block_noted(
    memory: &mut Memory,
    notes: &mut Vec<Note>,
    clause: Clause,
    given: Given,
) -> Result<u64, Stop>
    requires { IsMadeIn memory.old.table given.pointer.prov }
    ensures answer { OrNoMemory result (with_notes memory.new notes.new.items) (block clause given (with_notes memory.old notes.old.items)) }
    ensures live { IfOk result (λ i. IsLive memory.new.table.instances i) }
{
    let p = given.pointer;
    let test = Test::Block { address: p.address };
    match block(memory, clause, p) {
        Ok((i, tried)) => match note_use(notes, test, tried) {
            Ok(()) => Ok(i),
            Err(NoMemory) => Err(Stop::NoMemory),
        },
        Err(stopped) => Err(stopped_after(notes, test, stopped, given.stopped)),
    }
}

/// Ends an allocation, and notes it.
fn end(memory: &mut Memory, notes: &mut Vec<Note>, i: u64) -> Result<(), NoMemory>
    requires { IsLive memory.old.table.instances i }
    ensures { OnOk result (with_notes memory.new notes.new.items ≡ with_notes (without memory.old i) (notes.old.items ++ Ended i ∷ [])) }
{
    memory.end(i);
    match notes.push(Note::Ended { inst: i }) {
        Ok(()) => Ok(()),
        Err(_) => Err(NoMemory),
    }
}

/// `free` (7.22.3.3).
#[tactic(auto, using(crate::proofs::Steps::or_stop))]
pub(crate) fn free(memory: &mut Memory, notes: &mut Vec<Note>, given: Given) -> Result<Reply, Stop>
    requires { IsMadeIn memory.old.table given.pointer.prov }
    ensures { OrNoMemory result (with_notes memory.new notes.new.items) (free given (with_notes memory.old notes.old.items)) }
{
    if given.pointer.is_null() {
        return Ok(Reply::Nothing);
    }
    match block_noted(memory, notes, Clause::Freeing, given) {
        Ok(i) => match end(memory, notes, i) {
            Ok(()) => Ok(Reply::Nothing),
            Err(NoMemory) => Err(Stop::NoMemory),
        },
        Err(stop) => Err(stop),
    }
}

/// The first bytes that both allocations have are copied from the old one.
#[tactic(auto, using(crate::proofs::Reaches::whole_reach))]
fn both(memory: &mut Memory, i: u64, j: u64)
    ensures state { memory.new ≡ after_block_copy (told_of memory.old i) (told_of memory.old j) memory.old }
    ensures table { memory.new.table ≡ memory.old.table }
{
    if let Some(old) = memory.instances().info(i) {
        if let Some(new) = memory.instances().info(j) {
            memory.copy(&whole(j, new), &whole(i, old), old.size.min(new.size));
        }
    }
}

/// `realloc` (7.22.3.5). The request is made while the old allocation is live.
#[tactic(auto, using(crate::proofs::Steps::or_stop))]
pub(crate) fn realloc(
    memory: &mut Memory,
    notes: &mut Vec<Note>,
    names: &Names,
    given: Given,
    size: u64,
) -> Result<Reply, Stop>
    requires named { 1 < length names.now }
    requires heap { text_of names.now 1 ≡ codes "@heap" }
    requires made { IsMadeIn memory.old.table given.pointer.prov }
    ensures { OrNoMemory result (with_notes memory.new notes.new.items) (realloc given size (with_notes memory.old notes.old.items)) }
{
    if given.pointer.is_null() {
        return malloc(memory, notes, names, size);
    }
    match block_noted(memory, notes, Clause::Reallocating, given) {
        Ok(i) => resized(memory, notes, names, i, size),
        Err(stop) => Err(stop),
    }
}

/// The allocation, with another size.
#[tactic(auto, using(crate::proofs::Steps::or_stop))]
fn resized(
    memory: &mut Memory,
    notes: &mut Vec<Note>,
    names: &Names,
    i: u64,
    size: u64,
) -> Result<Reply, Stop>
    requires named { 1 < length names.now }
    requires heap { text_of names.now 1 ≡ codes "@heap" }
    requires live { IsLive memory.old.table.instances i }
    ensures { OrNoMemory result (with_notes memory.new notes.new.items) (resize_of size i (with_notes memory.old notes.old.items)) }
{
    if size == 0 {
        return Ok(Reply::Value(NULL));
    }
    match requested(memory, notes, names, size) {
        Ok(Ok(j)) => {
            let reply = pointer_to(memory, j);
            both(memory, i, j);
            match end(memory, notes, i) {
                Ok(()) => Ok(reply),
                Err(NoMemory) => Err(Stop::NoMemory),
            }
        }
        Ok(Err(refused)) => Ok(refused),
        Err(stop) => Err(stop),
    }
}
