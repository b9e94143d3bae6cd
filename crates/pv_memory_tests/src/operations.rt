// Operations on the pointers of a memory.
use crate::memory::{FIRST, SECOND, known, touching};
use pv_fault::{Reason, Verdict};
use pv_inst::Miss;
use pv_num::IntKind;
use pv_object::{Memory, Pointer, Stop};
use pv_prov::Prov;
use std::cmp::Ordering;
use std::process::Abort;

/// The end of the first object, which is also where the second one begins.
const END: Pointer = Pointer {
    address: 0x20008,
    prov: Prov::Inst(1),
};

/// A pointer moves within its object.
fn move_within(rt: &impl Abort, memory: &mut Memory) {
    known(rt, memory, FIRST);
    assert!(rt; matches!(memory.shift(FIRST, 8), Ok((p, _)) if p == END));
    known(rt, memory, FIRST);
    assert!(rt; matches!(memory.select(FIRST, 4), Ok((p, _)) if p.address == 0x20004));
}

/// A pointer is looked at alone.
fn look_at_one(rt: &impl Abort, memory: &mut Memory) {
    known(rt, memory, FIRST);
    assert!(rt; memory.recast(FIRST, 8).is_ok());
    known(rt, memory, FIRST);
    assert!(rt; matches!(memory.truth(FIRST), Ok((true, _))));
    assert!(rt; !FIRST.is_null());
}

/// A pointer to an object is none to a function.
fn look_for_a_function(rt: &impl Abort, memory: &mut Memory) {
    known(rt, memory, FIRST);
    let answer = memory.code(FIRST);
    assert!(rt;
        matches!(answer, Err(Stop::Ends(Verdict::Undefined(fault))) if fault.reason == Reason::Outside)
    );
}

/// Two pointers are compared.
fn compare(rt: &impl Abort, memory: &mut Memory) {
    known(rt, memory, FIRST);
    assert!(rt; matches!(memory.order(FIRST, END), Ok((Ordering::Less, _, _))));
    known(rt, memory, FIRST);
    assert!(rt; matches!(memory.subtract(END, FIRST, 4), Ok((2, _, _))));
    known(rt, memory, FIRST);
    known(rt, memory, SECOND);
    assert!(rt; matches!(memory.equal(END, SECOND), Ok((true, _, _))));
}

/// Both objects are exposed, and a number finds either.
fn find(rt: &impl Abort, memory: &mut Memory) {
    known(rt, memory, FIRST);
    assert!(rt; matches!(memory.to_int(FIRST, IntKind::ULong), Ok((0x20000, _))));
    known(rt, memory, SECOND);
    assert!(rt; memory.to_int(SECOND, IntKind::ULong).is_ok());
    assert!(rt; !memory.is_told() && memory.next_exposed() == Some(1));
    assert!(rt; matches!(memory.to_ptr(0x20008), Ok(p) if p.prov == Prov::Pair(1)));
}

/// A list of sides settles the pair to the high one.
fn settle(rt: &impl Abort, memory: &mut Memory) {
    assert!(rt; memory.instances().knows(Prov::Pair(1)));
    let twin = memory.instances().pair(1).expect(rt, "no pair");
    assert!(rt; twin.keeps_low && twin.keeps_high);
    memory.side(1, true);
    let after = memory.instances().pair(1).expect(rt, "no pair");
    assert!(rt; !after.keeps_low && after.keeps_high);
}

/// An allocation is a block until it ends.
fn give_up(rt: &impl Abort, memory: &mut Memory) {
    let p = Pointer {
        address: 0x10000,
        prov: Prov::Inst(3),
    };
    known(rt, memory, p);
    assert!(rt; memory.block(p).is_ok());
    match memory.instances().info(3) {
        Some(_) => memory.end(3),
        None => panic!(rt; "no live instance"),
    }
    known(rt, memory, p);
    assert!(rt; memory.block(p) == Err(Miss::Ended));
}

#[test]
fn pointers_are_operands(rt: HostRuntime) {
    let mut memory = touching(&rt, rt.alloc());
    move_within(&rt, &mut memory);
    look_at_one(&rt, &mut memory);
    look_for_a_function(&rt, &mut memory);
    compare(&rt, &mut memory);
    find(&rt, &mut memory);
    settle(&rt, &mut memory);
    give_up(&rt, &mut memory);
}
