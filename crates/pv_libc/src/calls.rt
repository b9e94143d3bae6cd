// A call of a library function.
ghost use Rattle.std.specs.Prelude.{◌≡◌, ◌<◌, ◌++◌, pos, drop, length, codes, map, All, IfOk, OnOk, OnErr};
ghost use Rattle.pv_num.specs.Kinds.{convert_of};
ghost use Rattle.pv_num.specs.declared.kinds.IntKind.TheVariants as kind;
ghost use Rattle.pv_script.specs.Names.{name_at as text_of};
ghost use Rattle.pv_inst.specs.Table.{IsMadeIn};
ghost use Rattle.pv_object.specs.Answers.{IsMadeValue};
ghost use Rattle.pv_object.specs.declared.values.Value.TheVariants as value;
ghost use Rattle.pv_libc.specs.declared.values.Reply.TheVariants as reply;
ghost use Rattle.pv_libc.specs.Steps.{with_notes};
ghost use Rattle.pv_libc.specs.Answers.{OrNoMemory, worth, behind};
ghost use Rattle.pv_libc.specs.Makings.{AreLive, UnlessNoMemory};
ghost use Rattle.pv_library.specs.declared.library.Library.TheVariants as library;
ghost use Rattle.pv_libc.specs.Calls.{number, size, status, pointer_in, stop_note, argument_at, offer, text_of_format, reply_to_call, called_in, output, output_in};

use crate::blocks::{copy, memcmp, memset};
use crate::heap::{calloc, free, malloc, realloc};
use crate::printing::{format_of, printed};
use crate::strings::{strcmp, strcpy, strlen};
use crate::values::{Arg, Given, Note, Offered, Reply};
use pv_library::Library;
use pv_num::{IntKind, convert, fits};
use pv_object::{Memory, Pointer, Stop, Value};
use pv_prov::{NoMemory, Prov};
use pv_script::Names;
use std::alloc::Global;

/// The number that an argument is.
fn number(args: &[Arg], i: usize) -> i128
    ensures { result ≡ number args.now i }
{
    match args.get(i) {
        Some(x) => match x.value {
            Value::Int(n) => n,
            Value::Unset | Value::Pointer(_) => 0,
        },
        None => 0,
    }
}

/// The size that an argument is.
fn size(args: &[Arg], i: usize) -> u64
    ensures { result ≡ size args.now i }
{
    number(args, i).rem_euclid(0x1_0000_0000_0000_0000) as u64
}

/// The status that an argument is.
fn status(args: &[Arg], i: usize) -> i32
    ensures { result ≡ status args.now i }
{
    let n = number(args, i);
    if fits(IntKind::Int, n) { n as i32 } else { 0 }
}

/// The pointer that a value is.
fn pointer_in(value: Value) -> Pointer
    ensures { result ≡ pointer_in value }
{
    match value {
        Value::Pointer(p) => p,
        Value::Unset | Value::Int(_) => Pointer {
            address: 0,
            prov: Prov::Empty,
        },
    }
}

/// What is noted last where a check of a pointer stops the call.
fn stopped(memory: &Memory, p: Prov) -> Note
    requires { IsMadeIn memory.now.table p }
    ensures { result ≡ stop_note memory.now p }
{
    let stands = memory.instances().stands(p);
    let pair = match p {
        Prov::Pair(k) => Some(k),
        Prov::Inst(_) | Prov::Empty => None,
    };
    Note::Stopped {
        low: stands.low,
        high: stands.high,
        pair,
    }
}

/// The pointer that an argument is, before the call.
fn argument_at(memory: &Memory, args: &[Arg], i: usize) -> Given
    requires { All (λ a. IsMadeValue memory.now.table a.value) args.now }
    ensures pointer { result ≡ argument_at args.now i memory.now }
    ensures made { IsMadeIn memory.now.table result.pointer.prov }
{
    let value = match args.get(i) {
        Some(x) => x.value,
        None => Value::Unset,
    };
    let pointer = pointer_in(value);
    Given {
        pointer,
        stopped: stopped(memory, pointer.prov),
    }
}

/// The arguments behind a format, before the call.
fn offer(alloc: Global, memory: &Memory, args: &[Arg]) -> Result<Vec<Offered>, NoMemory>
    requires { All (λ a. IsMadeValue memory.now.table a.value) args.now }
    ensures { IfOk result (λ v. v.items ≡ map (offer memory.now) (drop 1 args.now)) }
{
    let mut offered = Vec::new(alloc);
    for i in 1..args.len() {
        let arg = args[i];
        let stopped = stopped(memory, pointer_in(arg.value).prov);
        if offered.push(Offered { arg, stopped }).is_err() {
            return Err(NoMemory);
        }
    }
    Ok(offered)
}

/// The text of a call of `printf`.
#[tactic(auto, using(crate::proofs::Offering::offered_made))]
fn printed_text(
    memory: &mut Memory,
    notes: &mut Vec<Note>,
    alloc: Global,
    args: &[Arg],
) -> Result<Vec<u8>, Stop>
    requires { All (λ a. IsMadeValue memory.old.table a.value) args.now }
    ensures { OrNoMemory (worth (λ v. v.items) result) (with_notes memory.new notes.new.items) (text_of_format args.now (with_notes memory.old notes.old.items)) }
{
    let given = argument_at(memory, args, 0);
    let Ok(format) = format_of(alloc, memory, given.pointer.prov) else {
        return Err(Stop::NoMemory);
    };
    let Ok(offered) = offer(alloc, memory, args) else {
        return Err(Stop::NoMemory);
    };
    printed(alloc, memory, notes, &format, &offered)
}

/// How many bytes are printed, as a reply.
fn count_of(n: usize) -> Reply
    ensures { result ≡ reply.Value (value.Int (convert_of kind.Int (pos n))) }
{
    Reply::Value(Value::Int(convert(IntKind::Int, n as i128)))
}

/// `printf` (7.21.6.3).
fn printf(
    memory: &mut Memory,
    notes: &mut Vec<Note>,
    args: &[Arg],
    text: &mut Vec<u8>,
) -> Result<Reply, Stop>
    requires { All (λ a. IsMadeValue memory.old.table a.value) args.now }
    ensures answer { OrNoMemory result (with_notes memory.new notes.new.items) (called_in library.Printf args.now (with_notes memory.old notes.old.items)) }
    ensures text { OnOk result (text.new.items ≡ text.old.items ++ output_in library.Printf args.now (with_notes memory.old notes.old.items)) }
{
    let more = match printed_text(memory, notes, *text.allocator(), args) {
        Ok(more) => more,
        Err(stop) => return Err(stop),
    };
    match text.extend_from_slice(&more) {
        Ok(()) => Ok(count_of(more.len())),
        Err(_) => Err(Stop::NoMemory),
    }
}

/// What a call does to the memory, what it replies, what is noted, and what it prints.
fn called(
    m: &mut Memory,
    notes: &mut Vec<Note>,
    f: Library,
    args: &[Arg],
    names: &Names,
    text: &mut Vec<u8>,
) -> Result<Reply, Stop>
    requires named { 1 < length names.now }
    requires heap { text_of names.now 1 ≡ codes "@heap" }
    requires made { All (λ a. IsMadeValue m.old.table a.value) args.now }
    ensures answer { OrNoMemory result (with_notes m.new notes.new.items) (called_in f args.now (with_notes m.old notes.old.items)) }
    ensures text { OnOk result (text.new.items ≡ text.old.items ++ output_in f args.now (with_notes m.old notes.old.items)) }
{
    let alloc = *text.allocator();
    match f {
        Library::Malloc => malloc(m, notes, names, size(args, 0)),
        Library::Calloc => calloc(m, notes, names, size(args, 0), size(args, 1)),
        Library::Free => free(m, notes, argument_at(m, args, 0)),
        Library::Realloc => realloc(m, notes, names, argument_at(m, args, 0), size(args, 1)),
        Library::Memcpy => {
            let to = argument_at(m, args, 0);
            copy(m, notes, true, to, argument_at(m, args, 1), size(args, 2))
        }
        Library::Memmove => {
            let to = argument_at(m, args, 0);
            copy(m, notes, false, to, argument_at(m, args, 1), size(args, 2))
        }
        Library::Memset => memset(
            m,
            notes,
            argument_at(m, args, 0),
            number(args, 1),
            size(args, 2),
        ),
        Library::Memcmp => {
            let left = argument_at(m, args, 0);
            let right = argument_at(m, args, 1);
            memcmp(alloc, m, notes, left, right, size(args, 2))
        }
        Library::Strlen => strlen(alloc, m, notes, argument_at(m, args, 0)),
        Library::Strcmp => {
            let left = argument_at(m, args, 0);
            strcmp(m, notes, left, argument_at(m, args, 1))
        }
        Library::Strcpy => {
            let to = argument_at(m, args, 0);
            let from = argument_at(m, args, 1);
            strcpy(alloc, m, notes, to, from)
        }
        Library::Exit => Ok(Reply::Exit(status(args, 0))),
        Library::Abort => Ok(Reply::Abort),
        Library::Printf => printf(m, notes, args, text),
    }
}

/// What a call of a library function does to the memory, what it replies, what it prints, and what happened within it:
/// `notes` gains that in order, and where the call stops by the check of a pointer, `Stopped` last.
///
/// `args` are values of the prototype's types, converted; behind a format they are promoted (6.5.2.2p6). After a stop
/// nothing is printed. `NoMemory` may come anywhere; then the memory and the notes aren't used again. Each instance that the
/// call notes as made is live after it.
#[tactic(auto, using(crate::proofs::Steps::or_behind, crate::proofs::Makings::called_live))]
pub fn call(
    m: &mut Memory,
    f: Library,
    args: &[Arg],
    names: &Names,
    out: &mut Vec<u8>,
    notes: &mut Vec<Note>,
) -> Result<Reply, Stop>
    requires named { 1 < length names.now }
    requires heap { text_of names.now 1 ≡ codes "@heap" }
    requires made { All (λ a. IsMadeValue m.old.table a.value) args.now }
    ensures answer { OrNoMemory result (with_notes m.new notes.new.items) (behind notes.old.items (reply_to_call f args.now m.old)) }
    ensures out { OnOk result (out.new.items ≡ out.old.items ++ output f args.now m.old) }
    ensures kept { OnErr result (out.new.items ≡ out.old.items) }
    ensures makings { AreLive (reply_to_call f args.now m.old).after.memory (reply_to_call f args.now m.old).after.notes }
    ensures live { UnlessNoMemory result (AreLive m.new notes.old.items → AreLive m.new notes.new.items) }
{
    let alloc = *out.allocator();
    let mut within = Vec::new(alloc);
    let mut text = Vec::new(alloc);
    let reply = called(m, &mut within, f, args, names, &mut text);
    if notes.extend_from_slice(&within).is_err() {
        return Err(Stop::NoMemory);
    }
    match reply {
        Ok(reply) => match out.extend_from_slice(&text) {
            Ok(()) => Ok(reply),
            Err(_) => Err(Stop::NoMemory),
        },
        Err(stop) => Err(stop),
    }
}
