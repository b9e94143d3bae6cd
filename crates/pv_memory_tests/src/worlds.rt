// The objects of a run, and values that are read from them and stored there.
ghost use Rattle.pv_inst.specs.Table.{IsMadeIn};
ghost use Rattle.pv_world.specs.Preconditions.{HasSizeOf};
ghost use Rattle.pv_world.specs.Coming.{worth_of, IsMadeWorth};

use crate::memory::FIRST;
use crate::scripts::{names, neighbours};
use pv_num::IntKind;
use pv_object::{Pointer, Scalar, Value};
use pv_script::Names;
use pv_watch::What;
use pv_world::{Got, Shape, World, origin_of};
use std::alloc::Global;
use std::process::Abort;

/// A new object of eight bytes.
fn make(
    rt: &impl Abort,
    world: &mut World,
    names: &Names,
    object: u32,
    name: u32,
    lasting: bool,
    told: &mut Vec<What>,
) {
    assert!(rt; name < names.len());
    assert!(rt; names.text(name) != b"@heap".as_slice());
    let made = world.make(names, object, lasting, name, 8, 8, false, told);
    assert!(rt; made.is_ok());
}

/// A world with two static objects that touch: instance 1 from 0x20000 on is object 0, and instance 2 behind it object 1.
pub(crate) fn touching(rt: &impl Abort, alloc: Global, names: &Names) -> World {
    let mut world = World::new(alloc, neighbours(rt, alloc), names, true).expect(rt, "no memory");
    let mut told = Vec::new(alloc);
    make(rt, &mut world, names, 0, 2, true, &mut told);
    make(rt, &mut world, names, 1, 3, true, &mut told);
    let first = What::Made {
        inst: 1,
        name: 2,
        k: 1,
        base: 0x20000,
        size: 8,
    };
    assert!(rt; told.len() == 2 && told[0] == first);
    world
}

/// Asserts that the name of a pointer was made.
pub(crate) fn known(rt: &impl Abort, world: &World, p: Pointer)
    ensures { IsMadeIn world.now.memory.table p.prov }
{
    assert!(rt; world.memory().instances().knows(p.prov));
}

/// Where objects and literals lie, and which object an instance is.
fn look_at_places(rt: &impl Abort, world: &World) {
    assert!(rt; world.object_place(0, true) == FIRST);
    assert!(rt; world.owner(1) == Some(0));
    assert!(rt; world.literal(7) == 3 && world.literal_place(7).address == 0x10000);
}

/// A literal of two characters.
fn make_literal(rt: &impl Abort, world: &mut World, names: &Names, told: &mut Vec<What>) {
    assert!(rt; 0 < names.len());
    assert!(rt; names.text(0) != b"@heap".as_slice());
    assert!(rt; world.make_literal(names, 7, b"ab", told).is_ok());
}

/// An object of a body lives, and ends with it.
fn live_in_a_body(rt: &impl Abort, world: &mut World, names: &Names, told: &mut Vec<What>) {
    world.begin_body(2, 7).expect(rt, "no memory");
    make(rt, world, names, 4, 2, false, told);
    let i = world.instance(4, false);
    match world.memory().instances().info(i) {
        Some(_) => assert!(rt; world.end(4, false, told).is_ok()),
        None => panic!(rt; "no live instance"),
    }
    world.end_body();
    assert!(rt; world.object_place(4, false).address == 0);
}

/// What was told: the literal and the object of the body were made, and the latter ended.
fn look_back(rt: &impl Abort, told: &[What]) {
    assert!(rt; told.len() == 3);
    assert!(rt; told[2] == What::Ended { inst: 4 });
}

#[test]
fn objects_lie_where_they_were_made(rt: HostRuntime) {
    let names = names(&rt, rt.alloc());
    let mut world = touching(&rt, rt.alloc(), &names);
    let mut told = Vec::new(rt.alloc());
    make_literal(&rt, &mut world, &names, &mut told);
    look_at_places(&rt, &world);
    live_in_a_body(&rt, &mut world, &names, &mut told);
    look_back(&rt, &told);
}

/// What the first object's bytes are in a shape.
fn read(rt: &impl Abort, world: &mut World, n: u64, shape: Shape, told: &mut Vec<What>) -> Got
    requires size { HasSizeOf shape n }
    ensures made { IsMadeWorth world.new.memory.table (worth_of result) }
{
    known(rt, world, FIRST);
    let blame = world.blame(FIRST);
    let Ok(at) = world.reach(FIRST, n, 1, false, told) else {
        panic!(rt; "no place");
    };
    known(rt, world, FIRST);
    match world.value(&at, n, shape, FIRST, blame, told) {
        Ok(v) => v,
        Err(_) => panic!(rt; "no value"),
    }
}

/// Asserts that the first object is this number.
fn check_number(rt: &impl Abort, world: &mut World, n: i128, told: &mut Vec<What>) {
    match read(rt, world, 4, Shape::Int(IntKind::Int), told) {
        Got::Scalar(Value::Int(x)) => assert!(rt; x == n),
        _ => panic!(rt; "no number"),
    }
}

/// A number is stored by an access.
fn store(rt: &impl Abort, world: &mut World, told: &mut Vec<What>) {
    known(rt, world, FIRST);
    let Ok(at) = world.reach(FIRST, 4, 4, true, told) else {
        panic!(rt; "no place");
    };
    world.store(
        &at,
        4,
        6,
        Shape::Int(IntKind::Int),
        &Got::Scalar(Value::Int(-5)),
    );
}

/// Initial stores, which check nothing but that there is room.
fn initialize(rt: &impl Abort, world: &mut World, told: &mut Vec<What>) {
    assert!(rt; world.has_room(world.instance(0, true), 0, 8));
    assert!(rt; world.fill(0, true, 8, Some(255)).is_ok());
    check_number(rt, world, -1, told);
    assert!(rt; world.has_room(world.instance(0, true), 0, 4));
    world.put_scalar(
        0,
        true,
        0,
        Scalar::Int(IntKind::Int),
        &Value::Int(258),
        None,
    );
}

/// A structure is read as a whole, and goes to the second object.
fn copy_whole(rt: &impl Abort, world: &mut World, told: &mut Vec<What>) {
    let v = read(rt, world, 8, Shape::Whole, told);
    assert!(rt; origin_of(&v) == Some(0x20000));
    match &v {
        Got::Whole(bytes, _) => {
            let n = bytes.len() as u64;
            assert!(rt; world.has_room(world.instance(1, true), 0, n));
            world.put_bytes(1, true, 0, bytes);
        }
        _ => panic!(rt; "no structure"),
    }
}

/// A member of a structure that is a value.
fn take_a_part(rt: &impl Abort, world: &mut World, told: &mut Vec<What>) {
    let v = read(rt, world, 8, Shape::Whole, told);
    match &v {
        Got::Whole(bytes, _) => assert!(rt; bytes.len() == 8),
        _ => panic!(rt; "no structure"),
    }
    let part = world.part(0, 2, Shape::Int(IntKind::Short), &v, told);
    assert!(rt; matches!(part, Ok(Got::Scalar(Value::Int(258)))));
}

#[test]
fn objects_are_read_and_written(rt: HostRuntime) {
    let names = names(&rt, rt.alloc());
    let mut world = touching(&rt, rt.alloc(), &names);
    let mut told = Vec::new(rt.alloc());
    store(&rt, &mut world, &mut told);
    check_number(&rt, &mut world, -5, &mut told);
    initialize(&rt, &mut world, &mut told);
    copy_whole(&rt, &mut world, &mut told);
    take_a_part(&rt, &mut world, &mut told);
}
