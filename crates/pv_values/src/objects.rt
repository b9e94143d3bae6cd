// Named objects, each with its type, its address and its value (C17 6.2.4).
ghost use Rattle.std.specs.Prelude.{◌≡◌, ◌<◌, ◌++◌, Some, length, IfOk, OnOk};
ghost use Rattle.pv_inst.specs.Table.{instance_at};
ghost use Rattle.pv_types.specs.Known.{tree};
ghost use Rattle.pv_typed.specs.Known.{AreKnown};
ghost use Rattle.pv_typed.specs.Tables.{whole_unit};
ghost use Rattle.pv_describe.specs.Bounds.{AreSmall};
ghost use Rattle.pv_values.specs.Standing as specified;

use crate::declarators::type_name;
use crate::pointers::add_id;
use crate::scalars::Spot;
use crate::texts::{add, add_address, add_number};
use crate::values::{LEVELS, add_value};
use pv_inst::Instance;
use pv_object::Memory;
use pv_typed::TypedUnit;
use pv_types::{NoMemory, TypeId};
use pv_world::World;
use std::alloc::Global;

// The line of an object of this type that has this instance.
fn object_line(
    alloc: Global,
    u: &TypedUnit,
    memory: &Memory,
    word: &[u8],
    t: TypeId,
    i: u64,
    x: &Instance,
) -> Result<Vec<u8>, NoMemory>
    requires known { t.0 < length u.now.known.terms }
    requires small { AreSmall u.now.known }
    requires is { instance_at memory.now.table.instances i ≡ Some x.now }
    ensures { IfOk result (λ v. v.items ≡ specified.object_line (whole_unit u.now) memory.now word.now (tree u.now.known t.0) x.now) }
{
    let name = type_name(alloc, u, t)?;
    let mut line = Vec::from_slice(alloc, word)?;
    add(&mut line, b" ")?;
    add_id(alloc, &mut line, u, x)?;
    add(&mut line, b" type=")?;
    add(&mut line, name.as_slice())?;
    add(&mut line, b" address=")?;
    add_address(alloc, &mut line, x.base)?;
    add(&mut line, b" size=")?;
    add_number(alloc, &mut line, x.size)?;
    add(&mut line, b" value=")?;
    let at = Spot {
        instance: i,
        offset: 0,
    };
    add_value(alloc, &mut line, u, memory, LEVELS, at, t)?;
    add(&mut line, b"\n")?;
    Ok(line)
}

// Adds an object of this type, if its instance lives.
fn add_live(
    alloc: Global,
    text: &mut Vec<u8>,
    u: &TypedUnit,
    memory: &Memory,
    word: &[u8],
    t: TypeId,
    i: u64,
    x: &Instance,
) -> Result<(), NoMemory>
    requires known { t.0 < length u.now.known.terms }
    requires small { AreSmall u.now.known }
    requires is { instance_at memory.now.table.instances i ≡ Some x.now }
    ensures { OnOk result (text.new.items ≡ text.old.items ++ specified.live_object (whole_unit u.now) memory.now word.now (tree u.now.known t.0) x.now) }
{
    if !x.live {
        return Ok(());
    }
    let line = object_line(alloc, u, memory, word, t, i, x)?;
    add(text, line.as_slice())
}

// Adds an object of this type by the number of its instance, if it has one.
fn add_object(
    alloc: Global,
    text: &mut Vec<u8>,
    u: &TypedUnit,
    memory: &Memory,
    word: &[u8],
    t: TypeId,
    instance: Option<u64>,
) -> Result<(), NoMemory>
    requires known { t.0 < length u.now.known.terms }
    requires small { AreSmall u.now.known }
    ensures { OnOk result (text.new.items ≡ text.old.items ++ specified.object_text (whole_unit u.now) memory.now word.now (tree u.now.known t.0) instance) }
{
    let Some(i) = instance else {
        return Ok(());
    };
    match memory.instances().row(i) {
        Some(x) => add_live(alloc, text, u, memory, word, t, i, &x),
        None => Ok(()),
    }
}

// Adds object number n of the unit in body number k, if it is one of those with automatic storage.
fn add_own(
    alloc: Global,
    text: &mut Vec<u8>,
    u: &TypedUnit,
    world: &World,
    k: usize,
    n: u32,
) -> Result<(), NoMemory>
    requires there { n < length u.now.objects }
    requires known { AreKnown u.now }
    requires small { AreSmall u.now.known }
    ensures { OnOk result (text.new.items ≡ text.old.items ++ specified.own_text (whole_unit u.now) world.now k n) }
{
    let x = u.object(n);
    if x.lasting {
        return Ok(());
    }
    add_object(
        alloc,
        text,
        u,
        world.memory(),
        b"object",
        x.t,
        world.bound_at(k, n),
    )
}

/// Adds the objects of body number k from the innermost one that live.
pub(crate) fn add_objects(
    alloc: Global,
    text: &mut Vec<u8>,
    u: &TypedUnit,
    world: &World,
    k: usize,
) -> Result<(), NoMemory>
    requires known { AreKnown u.now }
    requires small { AreSmall u.now.known }
    ensures { OnOk result (text.new.items ≡ text.old.items ++ specified.objects_text (whole_unit u.now) world.now k) }
{
    let count = u.objects();
    for n in 0..count {
        add_own(alloc, text, u, world, k, n)?;
    }
    Ok(())
}

// Adds object number n of the unit, if it is one of those with static storage.
fn add_static(
    alloc: Global,
    text: &mut Vec<u8>,
    u: &TypedUnit,
    world: &World,
    n: u32,
) -> Result<(), NoMemory>
    requires there { n < length u.now.objects }
    requires known { AreKnown u.now }
    requires small { AreSmall u.now.known }
    ensures { OnOk result (text.new.items ≡ text.old.items ++ specified.static_text (whole_unit u.now) world.now n) }
{
    let x = u.object(n);
    if !x.lasting {
        return Ok(());
    }
    add_object(
        alloc,
        text,
        u,
        world.memory(),
        b"static",
        x.t,
        world.bound_to(n, true),
    )
}

/// Adds the objects with static storage that live.
pub(crate) fn add_statics(
    alloc: Global,
    text: &mut Vec<u8>,
    u: &TypedUnit,
    world: &World,
) -> Result<(), NoMemory>
    requires known { AreKnown u.now }
    requires small { AreSmall u.now.known }
    ensures { OnOk result (text.new.items ≡ text.old.items ++ specified.statics_text (whole_unit u.now) world.now) }
{
    let count = u.objects();
    for n in 0..count {
        add_static(alloc, text, u, world, n)?;
    }
    Ok(())
}
