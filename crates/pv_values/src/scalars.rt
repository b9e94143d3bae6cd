// Scalars as their bytes stand in an instance (C17 6.2.6.1).
ghost use Rattle.std.specs.Prelude.{◌≡◌, ◌<◌, ◌≤◌, ◌+◌, ◌++◌, ◌&&◌, nat_le, Some, None, take, length, OnOk, MatchOption};
ghost use Rattle.std.specs.Option.{option_and_then};
ghost use Rattle.pv_inst.specs.Table.{instance_at};
ghost use Rattle.pv_shadow.specs.Bytes.{bytes_from};
ghost use Rattle.pv_object.specs.Loading.{is_trap};
ghost use Rattle.pv_object.specs.Reaching.{IsReach};
ghost use Rattle.pv_types.specs.Known.{tree};
ghost use Rattle.pv_typed.specs.Tables.{whole_unit};
ghost use Rattle.pv_values.specs.Values as specified;
ghost use Rattle.pv_values.specs.ScalarParts.{bytes_at};
ghost use Rattle.pv_values.specs.PointerParts.{seen_pointer};

use crate::pointers::{Pointed, add_pointer};
use crate::texts::{add, add_signed};
use pv_inst::Instance;
use pv_layout::bare;
use pv_num::{IntKind, convert};
use pv_object::{Memory, Reach, UNTRIED};
use pv_shadow::{BLANK, Byte, whole_name};
use pv_typed::TypedUnit;
use pv_types::{NoMemory, Term, TypeId, bytes_of};
use std::alloc::Global;

/// Where a value is looked for: at an offset of an instance.
#[derive(Clone, Copy)]
pub(crate) struct Spot {
    pub instance: u64,
    pub offset: u64,
}

// Whether an instance lives, and has n bytes from an offset on.
fn holds(x: &Instance, offset: u64, n: u64) -> bool
    ensures { result ≡ (x.now.live && nat_le (offset + n) x.now.size) }
{
    x.live && offset as u128 + n as u128 <= x.size as u128
}

// Where n bytes are, if they are there.
fn place_of(memory: &Memory, at: Spot, n: u64) -> Option<Reach>
    requires { n ≤ 8 }
    ensures { MatchOption result (bytes_at memory.now at n ≡ None)
        (λ r. IsReach memory.now.table r n × (bytes_at memory.now at n ≡ Some (bytes_from memory.now.bytes r.address n))) }
{
    let instances = memory.instances();
    instances.well_formed();
    let Some(x) = instances.row(at.instance) else {
        return None;
    };
    if holds(&x, at.offset, n) {
        Some(Reach {
            inst: at.instance,
            offset: at.offset,
            address: x.base + at.offset,
            tried: UNTRIED,
        })
    } else {
        None
    }
}

// The first n of these eight stand at a place.
fn first_bytes(memory: &Memory, place: &Reach, n: usize) -> [Byte; 8]
    requires few { n ≤ 8 }
    requires there { IsReach memory.now.table place.now n }
    ensures { take n result ≡ bytes_from memory.now.bytes place.now.address n }
{
    let mut bytes = [BLANK; 8];
    memory.read_into(place, &mut bytes[..n]);
    bytes
}

// The number of n bytes, where each of them has a value.
fn number_at(memory: &Memory, at: Spot, n: u64) -> Option<u64>
    requires { n ≤ 8 }
    ensures { result ≡ specified.number_of_bytes memory.now (instance_at memory.now.table.instances at.instance) at.offset n }
{
    let Some(place) = place_of(memory, at, n) else {
        return None;
    };
    let bytes = first_bytes(memory, &place, n as usize);
    pv_shadow::number(&bytes[..n as usize])
}

// What eight bytes are as a pointer: their number, and the name under which they were stored as one.
fn pointed_by(bytes: &[Byte]) -> Option<Pointed>
    requires { length bytes.now ≤ 8 }
    ensures { seen_pointer result ≡ specified.pointer_in bytes.now }
{
    let Some(address) = pv_shadow::number(bytes) else {
        return None;
    };
    let name = whole_name(bytes);
    Some(Pointed { address, name })
}

// The pointer that stands in an instance.
fn pointer_at(memory: &Memory, at: Spot) -> Option<Pointed>
    ensures { seen_pointer result ≡ option_and_then specified.pointer_in (bytes_at memory.now at 8) }
{
    let Some(place) = place_of(memory, at, 8) else {
        return None;
    };
    let bytes = first_bytes(memory, &place, 8);
    pointed_by(&bytes[..8])
}

// Whether a number is no value of the kind (C17 6.2.6.1p5): a `_Bool` above 1.
fn is_trap(kind: IntKind, n: u64) -> bool
    ensures { result ≡ is_trap kind n }
{
    matches!(kind, IntKind::Bool) && 1 < n
}

// Adds an integer of the kind whose bytes are this number.
fn add_integer(
    alloc: Global,
    text: &mut Vec<u8>,
    kind: IntKind,
    n: Option<u64>,
) -> Result<(), NoMemory>
    ensures { OnOk result (text.new.items ≡ text.old.items ++ specified.integer_text kind n) }
{
    let Some(n) = n else {
        return add(text, b"unset");
    };
    if is_trap(kind, n) {
        return add(text, b"trap");
    }
    add_signed(alloc, text, convert(kind, i128::from(n)))
}

/// Adds the value of a scalar; of anything else `..`.
pub(crate) fn add_scalar(
    alloc: Global,
    text: &mut Vec<u8>,
    u: &TypedUnit,
    memory: &Memory,
    at: Spot,
    t: TypeId,
) -> Result<(), NoMemory>
    requires { t.0 < length u.now.known.terms }
    ensures { OnOk result (text.new.items ≡ text.old.items
        ++ specified.scalar_text (whole_unit u.now) memory.now (instance_at memory.now.table.instances at.instance) at.offset (tree u.now.known t.0)) }
{
    let types = u.types();
    match types.view(bare(types, t)) {
        Term::Int(kind) => add_integer(alloc, text, kind, number_at(memory, at, bytes_of(kind))),
        Term::Pointer(_) => add_pointer(alloc, text, u, memory.instances(), pointer_at(memory, at)),
        _ => add(text, b".."),
    }
}
