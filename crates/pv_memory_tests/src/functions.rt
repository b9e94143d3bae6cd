// Functions that are pointed to, and what is told of instances and uses.
use crate::scripts::names;
use crate::worlds::{known, touching};
use pv_fault::{Reason, Verdict};
use pv_inst::Tried;
use pv_object::Value;
use pv_script::Names;
use pv_watch::What;
use pv_world::{Bound, Cause, Got, World, tell_made, tell_used, unlike};
use std::process::Abort;

/// Function 9, which is called as the first object is, has an instance from here on.
fn make(rt: &impl Abort, world: &mut World, names: &Names, told: &mut Vec<What>) {
    assert!(rt; 2 < names.len());
    assert!(rt; names.text(2) != b"@heap".as_slice());
    assert!(rt; world.make_function(names, 9, 2, told).is_ok());
    assert!(rt; world.function(9) == 3 && told.len() == 1);
}

/// It is found by a pointer to its place.
fn find(rt: &impl Abort, world: &mut World, told: &mut Vec<What>) {
    let p = world.function_place(9);
    known(rt, world, p);
    let found = world.callee(&Got::Scalar(Value::Pointer(p)), told);
    assert!(rt; matches!(found, Ok(Some(9))));
}

#[test]
fn a_function_is_found_by_its_place(rt: HostRuntime) {
    let names = names(&rt, rt.alloc());
    let mut world = touching(&rt, rt.alloc(), &names);
    let mut told = Vec::new(rt.alloc());
    make(&rt, &mut world, &names, &mut told);
    find(&rt, &mut world, &mut told);
    assert!(&rt;
        matches!(unlike(), Cause::Ends(Verdict::Undefined(fault)) if fault.reason == Reason::WrongType)
    );
}

/// That instance 1 was made, and that a use of pair 5 left its low candidate.
fn tell(rt: &impl Abort, world: &World, told: &mut Vec<What>) {
    match world.memory().instances().info(1) {
        Some(_) => assert!(rt; tell_made(told, world.memory(), 1).is_ok()),
        None => panic!(rt; "no live instance"),
    }
    let tried = Tried {
        pair: Some(5),
        low: true,
        high: false,
    };
    assert!(rt; tell_used(told, 2, tried).is_ok());
}

#[test]
fn instances_and_uses_are_told(rt: HostRuntime) {
    let names = names(&rt, rt.alloc());
    let world = touching(&rt, rt.alloc(), &names);
    let mut told = Vec::new(rt.alloc());
    tell(&rt, &world, &mut told);
    assert!(&rt; told.len() == 2 && matches!(told[0], What::Made { inst: 1, .. }));
    assert!(&rt;
        matches!(
            told[1],
            What::Tried {
                pair: 5,
                test: 2,
                low: true,
                high: false
            }
        )
    );
    assert!(&rt; world.bound_to(0, true) == Some(1) && world.bound_to(0, false).is_none());
}

/// The last instance that a number was bound to is its own.
#[test]
fn numbers_are_bound_to_instances(rt: HostRuntime) {
    let mut bound = Bound::new(rt.alloc());
    for i in [6, 7] {
        bound.bind(3, i).expect(&rt, "no memory");
    }
    assert!(&rt; bound.get(3) == Some(7) && bound.get(4).is_none());
}
