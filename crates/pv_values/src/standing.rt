//! Where a run stands: its calls and objects. The only error is want of memory.
ghost use Rattle.std.specs.Prelude.{◌≡◌, ◌++◌, min, length, IfOk, OnOk};
ghost use Rattle.pv_typed.specs.Known.{AreKnown};
ghost use Rattle.pv_typed.specs.Tables.{whole_unit};
ghost use Rattle.pv_describe.specs.Bounds.{AreSmall};
ghost use Rattle.pv_values.specs.Standing as specified;
ghost use Rattle.pv_values.specs.StandingParts.{wanted_text, lasting_text};

use crate::names::name_of;
use crate::objects::{add_objects, add_statics};
use crate::texts::{add, add_number};
use pv_typed::TypedUnit;
use pv_types::NoMemory;
use pv_world::{Call, World};
use std::alloc::Global;

// The most calls that are shown.
const MOST_CALLS: usize = 64;

/// The calls that are active in a world of a unit, the innermost first, with the objects of its body that live; with `all` those of each body, and
/// behind them those with static storage.
pub fn state_text(
    alloc: Global,
    u: &TypedUnit,
    world: &World,
    all: bool,
) -> Result<Vec<u8>, NoMemory>
    requires known { AreKnown u.now }
    requires small { AreSmall u.now.known }
    ensures { IfOk result (λ v. v.items ≡ specified.state_text (whole_unit u.now) world.now all) }
{
    let mut text = Vec::new(alloc);
    add_calls(alloc, &mut text, u, world, all)?;
    add_more(alloc, &mut text, world.depth())?;
    add_lasting(alloc, &mut text, u, world, all)?;
    Ok(text)
}

// How many calls are shown.
fn shown_of(calls: usize) -> usize
    ensures value { result ≡ min calls specified.most_calls }
{
    if calls < MOST_CALLS {
        calls
    } else {
        MOST_CALLS
    }
}

// Adds the calls that are shown.
fn add_calls(
    alloc: Global,
    text: &mut Vec<u8>,
    u: &TypedUnit,
    world: &World,
    all: bool,
) -> Result<(), NoMemory>
    requires known { AreKnown u.now }
    requires small { AreSmall u.now.known }
    ensures { OnOk result (text.new.items ≡ text.old.items
        ++ specified.texts_from (specified.call_text (whole_unit u.now) world.now all) 0 (min (length world.now.bodies) specified.most_calls)) }
{
    let count = shown_of(world.depth());
    for k in 0..count {
        add_call(alloc, text, u, world, all, k)?;
    }
    Ok(())
}

// Adds a call, with the objects of its body where they are wanted.
fn add_call(
    alloc: Global,
    text: &mut Vec<u8>,
    u: &TypedUnit,
    world: &World,
    all: bool,
    k: usize,
) -> Result<(), NoMemory>
    requires known { AreKnown u.now }
    requires small { AreSmall u.now.known }
    ensures { OnOk result (text.new.items ≡ text.old.items ++ specified.call_text (whole_unit u.now) world.now all k) }
{
    let Some(call) = world.call(k) else {
        return Ok(());
    };
    add_call_line(alloc, text, u, call)?;
    add_wanted(alloc, text, u, world, all, k)
}

// Adds the objects of a body, where they are wanted.
fn add_wanted(
    alloc: Global,
    text: &mut Vec<u8>,
    u: &TypedUnit,
    world: &World,
    all: bool,
    k: usize,
) -> Result<(), NoMemory>
    requires known { AreKnown u.now }
    requires small { AreSmall u.now.known }
    ensures { OnOk result (text.new.items ≡ text.old.items ++ wanted_text (whole_unit u.now) world.now all k) }
{
    if all || k == 0 {
        add_objects(alloc, text, u, world, k)
    } else {
        Ok(())
    }
}

// Adds the line of a call.
fn add_call_line(
    alloc: Global,
    text: &mut Vec<u8>,
    u: &TypedUnit,
    call: Call,
) -> Result<(), NoMemory>
    ensures { OnOk result (text.new.items ≡ text.old.items ++ specified.call_line (whole_unit u.now) call.function call.line) }
{
    add(text, b"call ")?;
    add(text, name_of(u, call.function))?;
    add(text, b" line=")?;
    add_number(alloc, text, u64::from(call.line))?;
    add(text, b"\n")
}

// Adds how many calls more there are.
fn add_more(alloc: Global, text: &mut Vec<u8>, calls: usize) -> Result<(), NoMemory>
    ensures { OnOk result (text.new.items ≡ text.old.items ++ specified.more_calls calls) }
{
    if calls <= MOST_CALLS {
        return Ok(());
    }
    add(text, b"calls more=")?;
    add_number(alloc, text, (calls - MOST_CALLS) as u64)?;
    add(text, b"\n")
}

// Adds the objects with static storage, where they are wanted.
fn add_lasting(
    alloc: Global,
    text: &mut Vec<u8>,
    u: &TypedUnit,
    world: &World,
    all: bool,
) -> Result<(), NoMemory>
    requires known { AreKnown u.now }
    requires small { AreSmall u.now.known }
    ensures { OnOk result (text.new.items ≡ text.old.items ++ lasting_text (whole_unit u.now) world.now all) }
{
    if all {
        add_statics(alloc, text, u, world)
    } else {
        Ok(())
    }
}
