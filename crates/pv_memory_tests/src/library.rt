// Calls of the library.
ghost use Rattle.std.specs.Prelude.{◌↔◌, IsTrue, All};
ghost use Rattle.pv_object.specs.Answers.{IsMadeValue};

use crate::scripts::names;
use pv_libc::{Arg, Note, Reply, Shape, call};
use pv_library::Library;
use pv_num::IntKind;
use pv_object::{Memory, Pointer, Value};
use pv_prov::Prov;
use pv_script::{Names, Script};
use std::alloc::Global;
use std::process::Abort;

/// A memory that functions are called on, what they printed, and what happened within them.
#[derive(Drop)]
struct Bench {
    memory: Memory,
    names: Names,
    printed: Vec<u8>,
    notes: Vec<Note>,
}

fn start(rt: &impl Abort, alloc: Global) -> Bench {
    let names = names(rt, alloc);
    let memory = Memory::new(alloc, Script::empty(alloc), &names, true).expect(rt, "no memory");
    Bench {
        memory,
        names,
        printed: Vec::new(alloc),
        notes: Vec::new(alloc),
    }
}

/// Whether the name of a pointer was made.
fn is_known(memory: &Memory, value: Value) -> bool
    ensures { IsTrue result ↔ IsMadeValue memory.now.table value }
{
    match value {
        Value::Pointer(p) => memory.instances().knows(p.prov),
        Value::Int(_) | Value::Unset => true,
    }
}

/// Asserts it.
fn assert_known(rt: &impl Abort, memory: &Memory, value: Value)
    ensures { IsMadeValue memory.now.table value }
{
    assert!(rt; is_known(memory, value));
}

/// Asserts it of all arguments.
fn known(rt: &impl Abort, memory: &Memory, args: &[Arg])
    ensures { All (λ a. IsMadeValue memory.now.table a.value) args.now }
{
    for i in 0..args.len() {
        assert_known(rt, memory, args[i].value);
    }
}

impl Bench {
    /// What a call replies.
    fn call(&mut self, rt: &impl Abort, f: Library, args: &[Arg]) -> Reply {
        known(rt, &self.memory, args);
        assert!(rt; 1 < self.names.len());
        assert!(rt; self.names.text(1) == b"@heap".as_slice());
        match call(
            &mut self.memory,
            f,
            args,
            &self.names,
            &mut self.printed,
            &mut self.notes,
        ) {
            Ok(reply) => reply,
            Err(_) => panic!(rt; "the call stops"),
        }
    }

    /// The pointer that a call replies.
    fn pointer(&mut self, rt: &impl Abort, f: Library, args: &[Arg]) -> Pointer {
        match self.call(rt, f, args) {
            Reply::Value(Value::Pointer(p)) => p,
            _ => panic!(rt; "no pointer"),
        }
    }

    /// The number that a call replies.
    fn number(&mut self, rt: &impl Abort, f: Library, args: &[Arg]) -> i128 {
        match self.call(rt, f, args) {
            Reply::Value(Value::Int(n)) => n,
            _ => panic!(rt; "no number"),
        }
    }
}

/// A pointer to a character type.
fn text(p: Pointer) -> Arg {
    Arg {
        value: Value::Pointer(p),
        shape: Shape::Text,
    }
}

fn integer(kind: IntKind, n: i128) -> Arg {
    Arg {
        value: Value::Int(n),
        shape: Shape::Int(kind),
    }
}

/// How many bytes.
fn size(n: i128) -> Arg {
    integer(IntKind::ULong, n)
}

/// An allocation of six bytes: a text of five characters, and its end.
fn allocated(rt: &impl Abort, bench: &mut Bench) -> Pointer {
    let p = bench.pointer(rt, Library::Malloc, &[size(6)]);
    let end = Pointer {
        address: 0x10005,
        prov: Prov::Inst(1),
    };
    let _ = bench.pointer(
        rt,
        Library::Memset,
        &[text(p), integer(IntKind::Int, 97), size(5)],
    );
    let _ = bench.pointer(
        rt,
        Library::Memset,
        &[text(end), integer(IntKind::Int, 0), size(1)],
    );
    p
}

/// A text is measured, copied, compared and printed.
fn copy(rt: &impl Abort, bench: &mut Bench, p: Pointer) {
    assert!(rt; bench.number(rt, Library::Strlen, &[text(p)]) == 5);
    let q = bench.pointer(rt, Library::Calloc, &[size(2), size(3)]);
    assert!(rt; bench.pointer(rt, Library::Strcpy, &[text(q), text(p)]) == q);
    assert!(rt; bench.number(rt, Library::Memcmp, &[text(p), text(q), size(6)]) == 0);
    assert!(rt; bench.number(rt, Library::Printf, &[text(q)]) == 5);
}

/// An allocation moves, and is given up.
fn give_up(rt: &impl Abort, bench: &mut Bench, p: Pointer) {
    let q = bench.pointer(rt, Library::Realloc, &[text(p), size(9)]);
    assert!(rt;
        q == Pointer {
            address: 0x10040,
            prov: Prov::Inst(3)
        }
    );
    assert!(rt; matches!(bench.call(rt, Library::Free, &[text(q)]), Reply::Nothing));
}

/// What was printed, and what happened: three allocations were made, and the first and the last of them ended.
fn look_back(rt: &impl Abort, printed: &[u8], notes: &[Note]) {
    assert!(rt; printed == b"aaaaa".as_slice());
    assert!(rt; notes.len() == 5);
    assert!(rt; matches!(notes[4], Note::Ended { inst: 3 }));
}

#[test]
fn a_text_lies_in_an_allocation(rt: HostRuntime) {
    let mut bench = start(&rt, rt.alloc());
    let p = allocated(&rt, &mut bench);
    copy(&rt, &mut bench, p);
    give_up(&rt, &mut bench, p);
    look_back(&rt, &bench.printed, &bench.notes);
}
