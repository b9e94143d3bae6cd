// Operations of a run on values.
use crate::memory::{FIRST, SECOND};
use crate::scripts::names;
use crate::worlds::touching;
use pv_num::{BinOp, IntKind, UnOp};
use pv_object::{Pointer, Value};
use pv_prov::Prov;
use pv_watch::What;
use pv_world::{
    Failure, Got, How, World, calculate, calculate_one, follow, need, pointer_of, tell,
};
use std::process::Abort;

/// The number that an operation answers.
fn number(rt: &impl Abort, answer: Result<Got, Failure>) -> i128 {
    match answer {
        Ok(Got::Scalar(Value::Int(n))) => n,
        _ => panic!(rt; "no number"),
    }
}

/// The pointer that an operation answers.
fn pointer(rt: &impl Abort, answer: Result<Got, Failure>) -> Pointer {
    match answer {
        Ok(v) => pointer_of(&v),
        Err(_) => panic!(rt; "no pointer"),
    }
}

/// Integers are reckoned with.
fn reckon(rt: &impl Abort, told: &mut Vec<What>) {
    let (three, four) = (Value::Int(3), Value::Int(4));
    let sum = calculate(
        BinOp::Add,
        IntKind::Int,
        &Got::Scalar(three),
        &Got::Scalar(four),
        told,
    );
    assert!(rt; number(rt, sum) == 7);
    let less = calculate_one(UnOp::Minus, IntKind::Int, &Got::Scalar(four), told);
    assert!(rt; number(rt, less) == -4);
    assert!(rt; matches!(need(Got::Scalar(four), told), Ok(4)));
}

/// A pointer as a number, which exposes its object.
fn expose(rt: &impl Abort, world: &mut World, p: Pointer, told: &mut Vec<What>) -> i128 {
    let v = Got::Scalar(Value::Pointer(p));
    number(rt, world.convert(How::Numbers(IntKind::ULong), v, told))
}

/// A number as a pointer.
fn find(rt: &impl Abort, world: &mut World, n: i128, told: &mut Vec<What>) -> Pointer {
    pointer(
        rt,
        world.convert(How::Points, Got::Scalar(Value::Int(n)), told),
    )
}

/// Both objects are exposed, and the number where they meet is a pointer to either.
fn find_either(rt: &impl Abort, world: &mut World, told: &mut Vec<What>) {
    assert!(rt; expose(rt, world, FIRST, told) == 0x20000);
    assert!(rt; expose(rt, world, SECOND, told) == 0x20008);
    assert!(rt; find(rt, world, 0x20008, told).prov == Prov::Pair(1));
    assert!(rt; world.pairs_made() == 1);
}

/// What was told of it, and one event more.
fn tell_more(rt: &impl Abort, told: &mut Vec<What>) {
    assert!(rt; told.len() == 3);
    assert!(rt; told[1] == What::Exposed { inst: 2 });
    tell(told, What::Ended { inst: 9 }).expect(rt, "no memory");
    assert!(rt; told.len() == 4);
}

#[test]
fn numbers_become_pointers(rt: HostRuntime) {
    let names = names(&rt, rt.alloc());
    let mut world = touching(&rt, rt.alloc(), &names);
    let mut told = Vec::new(rt.alloc());
    reckon(&rt, &mut told);
    find_either(&rt, &mut world, &mut told);
    tell_more(&rt, &mut told);
}

/// A pointer moves within its object.
fn move_within(rt: &impl Abort, world: &mut World, told: &mut Vec<What>) {
    let v = Got::Scalar(Value::Pointer(FIRST));
    let moved = world.shift(false, true, 4, &v, &Got::Scalar(Value::Int(2)), told);
    assert!(rt; pointer(rt, moved).address == 0x20008);
    assert!(rt; pointer(rt, world.select(4, &v, told)).address == 0x20004);
}

/// A pointer is looked at.
fn look_at(rt: &impl Abort, world: &mut World, told: &mut Vec<What>) {
    let is = world.test(&Got::Scalar(Value::Pointer(FIRST)), told);
    assert!(rt; matches!(is, Ok(true)));
    let place = follow(false, Got::Scalar(Value::Pointer(FIRST)), told);
    assert!(rt; pointer(rt, place) == FIRST);
}

/// Two pointers are compared.
fn compare(rt: &impl Abort, world: &mut World, told: &mut Vec<What>) {
    let end = Value::Pointer(Pointer {
        address: 0x20008,
        prov: Prov::Inst(1),
    });
    let (v, x) = (Got::Scalar(Value::Pointer(FIRST)), Got::Scalar(end));
    assert!(rt; number(rt, world.order(BinOp::Lt, &v, &x, told)) == 1);
    assert!(rt; number(rt, world.subtract(4, &x, &v, told)) == 2);
    assert!(rt; number(rt, world.equal(false, &v, &x, told)) == 0);
}

#[test]
fn pointers_are_values(rt: HostRuntime) {
    let names = names(&rt, rt.alloc());
    let mut world = touching(&rt, rt.alloc(), &names);
    let mut told = Vec::new(rt.alloc());
    move_within(&rt, &mut world, &mut told);
    look_at(&rt, &mut world, &mut told);
    compare(&rt, &mut world, &mut told);
}
