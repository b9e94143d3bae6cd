// Values by their types: arrays, structures and unions part by part.
ghost use Rattle.std.specs.Prelude.{◌≡◌, ◌≤◌, ◌<◌, ◌+◌, ◌*◌, ◌^◌, ◌++◌, OnOk, length};
ghost use Rattle.pv_inst.specs.Table.{instance_at};
ghost use Rattle.pv_types.specs.Known.{tree};
ghost use Rattle.pv_typed.specs.Known.{Each};
ghost use Rattle.pv_typed.specs.Tables.{whole_unit};
ghost use Rattle.pv_describe.specs.Bounds.{AreSmall};
ghost use Rattle.pv_values.specs.Values as specified;
ghost use Rattle.pv_values.specs.ShapeParts as specified_parts;
ghost use Rattle.pv_values.specs.ShapeParts.{IsPart};

use crate::names::source_name;
use crate::scalars::{Spot, add_scalar};
use crate::shapes::{Part, Shape, shape_of};
use crate::texts::{add, add_byte, add_more, add_separator};
use pv_object::Memory;
use pv_typed::TypedUnit;
use pv_types::{NoMemory, TypeId};
use std::alloc::Global;

/// As many arrays, structures and unions are shown within one another.
pub(crate) const LEVELS: u32 = 3;

/// Adds a value, with so many levels of parts within parts.
#[cycle(valued)]
pub(crate) fn add_value(
    alloc: Global,
    text: &mut Vec<u8>,
    u: &TypedUnit,
    memory: &Memory,
    levels: u32,
    at: Spot,
    t: TypeId,
) -> Result<(), NoMemory>
    requires known { t.0 < length u.now.known.terms }
    requires small { AreSmall u.now.known }
    requires room { at.offset + levels * 2 ^ 32 ≤ 2 ^ 40 }
    ensures { OnOk result (text.new.items ≡ text.old.items
        ++ specified.value_at (whole_unit u.now) memory.now (instance_at memory.now.table.instances at.instance) levels at.offset (tree u.now.known t.0)) }
{
    if levels == 0 {
        return add_scalar(alloc, text, u, memory, at, t);
    }
    match shape_of(alloc, u, t)? {
        Some(shape) => add_shape(alloc, text, u, memory, levels - 1, at, &shape),
        None => add_scalar(alloc, text, u, memory, at, t),
    }
}

// Adds the parts of a value.
#[cycle(valued)]
fn add_shape(
    alloc: Global,
    text: &mut Vec<u8>,
    u: &TypedUnit,
    memory: &Memory,
    levels: u32,
    at: Spot,
    shape: &Shape,
) -> Result<(), NoMemory>
    requires parts { Each (IsPart (length u.now.known.terms)) shape.now.parts.items }
    requires small { AreSmall u.now.known }
    requires room { at.offset + (levels + 1) * 2 ^ 32 ≤ 2 ^ 40 }
    ensures { OnOk result (text.new.items ≡ text.old.items
        ++ specified.shape_text (whole_unit u.now) (specified.value_at (whole_unit u.now) memory.now (instance_at memory.now.table.instances at.instance) levels)
        at.offset (specified_parts.seen_shape u.now.known shape.now)) }
{
    add_byte(text, shape.opens)?;
    for i in 0..shape.parts.len() {
        let part = shape.parts[i];
        let place = Spot {
            instance: at.instance,
            offset: at.offset + part.offset,
        };
        add_label(text, u, i as u64, part)?;
        add_value(alloc, text, u, memory, levels, place, part.t)?;
    }
    add_more(text, shape.more)?;
    add_byte(text, shape.closes)
}

// Adds what stands before the value of a part.
fn add_label(text: &mut Vec<u8>, u: &TypedUnit, i: u64, part: Part) -> Result<(), NoMemory>
    ensures { OnOk result (text.new.items ≡ text.old.items ++ specified_parts.label_before (whole_unit u.now) i part.name) }
{
    add_separator(text, i)?;
    let Some(name) = part.name else {
        return Ok(());
    };
    add(text, b".")?;
    add(text, source_name(u, name))?;
    add(text, b" = ")
}
