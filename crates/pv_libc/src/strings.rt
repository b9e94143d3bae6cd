// Functions on strings (7.24.2.3, 7.24.4.2, 7.24.6.3).
ghost use Rattle.std.specs.Prelude.{◌≡◌};
ghost use Rattle.pv_inst.specs.Table.{IsMadeIn};
ghost use Rattle.pv_libc.specs.Steps.{with_notes};
ghost use Rattle.pv_libc.specs.Answers.{OrNoMemory};
ghost use Rattle.pv_object.specs.declared.values.Value.TheVariants as value;
ghost use Rattle.pv_libc.specs.declared.values.Reply.TheVariants as reply;
ghost use Rattle.pv_libc.specs.Blocks.{sign_of};
ghost use Rattle.pv_libc.specs.Strings.{strlen, strcpy};
ghost use Rattle.pv_libc.specs.StringParts.{strcmp};

use crate::blocks::{put, share};
use crate::characters::{character_at, most, string_at};
use crate::known::plain_comparison;
use crate::notes::reached;
use crate::values::{Given, Note, Reply};
use pv_fault::{Clause, Reason};
use pv_object::{Asker, Memory, Stop, Value, undefined};
use std::alloc::Global;

/// The sign of a first difference, as a reply.
pub(crate) fn sign_of(a: u8, b: u8) -> Reply
    ensures { result ≡ reply.Value (value.Int (sign_of a b)) }
{
    let sign = if a < b {
        -1
    } else if a == b {
        0
    } else {
        1
    };
    Reply::Value(Value::Int(sign))
}

/// `strlen` (7.24.6.3).
#[tactic(auto, using(crate::proofs::Steps::or_stop))]
pub(crate) fn strlen(
    alloc: Global,
    memory: &mut Memory,
    notes: &mut Vec<Note>,
    given: Given,
) -> Result<Reply, Stop>
    requires { IsMadeIn memory.old.table given.pointer.prov }
    ensures { OrNoMemory result (with_notes memory.new notes.new.items) (strlen given (with_notes memory.old notes.old.items)) }
{
    match string_at(alloc, memory, notes, Asker::Text, given) {
        Ok(text) => Ok(Reply::Value(Value::Int(text.len() as i128))),
        Err(stop) => Err(stop),
    }
}

/// `strcmp` (7.24.4.2).
pub(crate) fn strcmp(
    memory: &mut Memory,
    notes: &mut Vec<Note>,
    p: Given,
    q: Given,
) -> Result<Reply, Stop>
    requires left { IsMadeIn memory.old.table p.pointer.prov }
    requires right { IsMadeIn memory.old.table q.pointer.prov }
    ensures { OrNoMemory result (with_notes memory.new notes.new.items) (strcmp p q (with_notes memory.old notes.old.items)) }
{
    match plain_comparison(memory, p, q) {
        Some(reply) => Ok(reply),
        None => strcmp_singly(memory, notes, p, q),
    }
}

/// The same, character by character.
#[tactic(auto, using(pv_object::proofs::Later::made_later))]
fn strcmp_singly(
    memory: &mut Memory,
    notes: &mut Vec<Note>,
    p: Given,
    q: Given,
) -> Result<Reply, Stop>
    requires left { IsMadeIn memory.old.table p.pointer.prov }
    requires right { IsMadeIn memory.old.table q.pointer.prov }
    ensures { OrNoMemory result (with_notes memory.new notes.new.items) (strcmp p q (with_notes memory.old notes.old.items)) }
{
    for i in 0..most() {
        let a = match character_at(memory, notes, Asker::Text, p, i) {
            Ok(a) => a,
            Err(stop) => return Err(stop),
        };
        let b = match character_at(memory, notes, Asker::Text, q, i) {
            Ok(b) => b,
            Err(stop) => return Err(stop),
        };
        if a != b {
            return Ok(sign_of(a, b));
        }
        if a == 0 {
            return Ok(Reply::Value(Value::Int(0)));
        }
    }
    match notes.push(p.stopped) {
        Ok(()) => Err(undefined(Clause::StringFunctions, Reason::Outside)),
        Err(_) => Err(Stop::NoMemory),
    }
}

/// `strcpy` (7.24.2.3).
#[tactic(auto, using(pv_object::proofs::Later::made_later, crate::proofs::Steps::or_stop))]
pub(crate) fn strcpy(
    alloc: Global,
    memory: &mut Memory,
    notes: &mut Vec<Note>,
    to: Given,
    from: Given,
) -> Result<Reply, Stop>
    requires target { IsMadeIn memory.old.table to.pointer.prov }
    requires source { IsMadeIn memory.old.table from.pointer.prov }
    ensures { OrNoMemory result (with_notes memory.new notes.new.items) (strcpy to from (with_notes memory.old notes.old.items)) }
{
    let text = match string_at(alloc, memory, notes, Asker::Text, from) {
        Ok(text) => text,
        Err(stop) => return Err(stop),
    };
    let n = text.len() as u64 + 1;
    let at = match reached(memory, notes, Asker::Text, true, to, n) {
        Ok(at) => at,
        Err(stop) => return Err(stop),
    };
    if share(to.pointer.address, from.pointer.address, n) {
        return match notes.push(to.stopped) {
            Ok(()) => Err(undefined(Clause::StrcpyOverlap, Reason::Overlap)),
            Err(_) => Err(Stop::NoMemory),
        };
    }
    put(memory, &at, &text);
    Ok(Reply::Value(Value::Pointer(to.pointer)))
}
