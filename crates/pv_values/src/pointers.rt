// Pointers by the instances that they are of.
ghost use Rattle.std.specs.Prelude.{◌≡◌, ◌++◌, OnOk};
ghost use Rattle.pv_typed.specs.Tables.{whole_unit};
ghost use Rattle.pv_values.specs.Values as specified;
ghost use Rattle.pv_values.specs.PointerParts as specified_parts;

use crate::names::name_of;
use crate::texts::{add, add_address, add_number};
use pv_inst::{Instance, Instances};
use pv_prov::{Prov, Stands};
use pv_typed::TypedUnit;
use pv_types::NoMemory;
use std::alloc::Global;

/// What the bytes of a pointer are: a number, and the name under which it was stored as one.
#[derive(Clone, Copy)]
pub(crate) struct Pointed {
    pub address: u64,
    pub name: Option<Prov>,
}

// No candidate.
const NOBODY: Stands = Stands {
    low: None,
    high: None,
};

/// Adds an instance's name, and which of this name it is.
pub(crate) fn add_id(
    alloc: Global,
    text: &mut Vec<u8>,
    u: &TypedUnit,
    x: &Instance,
) -> Result<(), NoMemory>
    ensures { OnOk result (text.new.items ≡ text.old.items ++ specified.id_text (whole_unit u.now) x.now) }
{
    add(text, name_of(u, x.name))?;
    add(text, b"#")?;
    add_number(alloc, text, x.k)
}

// Adds how far an address lies from the first byte of an instance.
fn add_distance(alloc: Global, text: &mut Vec<u8>, base: u64, a: u64) -> Result<(), NoMemory>
    ensures { OnOk result (text.new.items ≡ text.old.items ++ specified.distance_text base a) }
{
    if base <= a {
        add(text, b" + ")?;
        add_number(alloc, text, a - base)
    } else {
        add(text, b" - ")?;
        add_number(alloc, text, base - a)
    }
}

// What is to be said of an address and its instance.
fn remark(x: &Instance, a: u64) -> &'static [u8]
    ensures { result.now ≡ specified.remark_text x.now a }
{
    let end = x.base as u128 + x.size as u128;
    if !x.live {
        b", ended"
    } else if a as u128 == end {
        b", one past the end"
    } else if x.base <= a && (a as u128) < end {
        b""
    } else {
        b", outside"
    }
}

// Adds an address by its instance.
fn add_place_in(
    alloc: Global,
    text: &mut Vec<u8>,
    u: &TypedUnit,
    x: &Instance,
    a: u64,
) -> Result<(), NoMemory>
    ensures { OnOk result (text.new.items ≡ text.old.items ++ specified.place_in (whole_unit u.now) x.now a) }
{
    if x.kind.is_function() && x.base == a {
        return add(text, name_of(u, x.name));
    }
    add(text, b"{")?;
    add_id(alloc, text, u, x)?;
    add_distance(alloc, text, x.base, a)?;
    add(text, remark(x, a))?;
    add(text, b"}")
}

// The same, by the number of the instance.
fn add_place(
    alloc: Global,
    text: &mut Vec<u8>,
    u: &TypedUnit,
    instances: &Instances,
    i: u64,
    a: u64,
) -> Result<(), NoMemory>
    ensures { OnOk result (text.new.items ≡ text.old.items ++ specified.place_text (whole_unit u.now) instances.now i a) }
{
    match instances.row(i) {
        Some(x) => add_place_in(alloc, text, u, &x, a),
        None => add(text, b"{?}"),
    }
}

// Adds an address by its candidates, the low one first.
fn add_both(
    alloc: Global,
    text: &mut Vec<u8>,
    u: &TypedUnit,
    instances: &Instances,
    s: Stands,
    a: u64,
) -> Result<(), NoMemory>
    ensures { OnOk result (text.new.items ≡ text.old.items ++ specified.both_text (whole_unit u.now) instances.now s.low s.high a) }
{
    match s.low {
        None => match s.high {
            None => add(text, b"{?}"),
            Some(j) => add_place(alloc, text, u, instances, j, a),
        },
        Some(i) => match s.high {
            None => add_place(alloc, text, u, instances, i, a),
            Some(j) => add_two(alloc, text, u, instances, i, j, a),
        },
    }
}

// Adds an address by two candidates.
fn add_two(
    alloc: Global,
    text: &mut Vec<u8>,
    u: &TypedUnit,
    instances: &Instances,
    low: u64,
    high: u64,
    a: u64,
) -> Result<(), NoMemory>
    ensures { OnOk result (text.new.items ≡ text.old.items ++ specified.two_text (whole_unit u.now) instances.now low high a) }
{
    add_place(alloc, text, u, instances, low, a)?;
    add(text, b" or ")?;
    add_place(alloc, text, u, instances, high, a)
}

// Adds an address that is of no instance.
fn add_bare(alloc: Global, text: &mut Vec<u8>, a: u64) -> Result<(), NoMemory>
    ensures { OnOk result (text.new.items ≡ text.old.items ++ specified.bare_address a) }
{
    if a == 0 {
        return add(text, b"null");
    }
    add_address(alloc, text, a)?;
    add(text, b" of no object")
}

// Adds a pointer that was stored as one.
fn add_named(
    alloc: Global,
    text: &mut Vec<u8>,
    u: &TypedUnit,
    instances: &Instances,
    a: u64,
    p: Prov,
) -> Result<(), NoMemory>
    ensures { OnOk result (text.new.items ≡ text.old.items ++ specified.named_text (whole_unit u.now) instances.now a p) }
{
    match p {
        Prov::Empty => add_bare(alloc, text, a),
        Prov::Inst(i) => add_place(alloc, text, u, instances, i, a),
        Prov::Pair(k) => add_pair(alloc, text, u, instances, a, k),
    }
}

// Adds a pointer whose name is a pair of candidates.
fn add_pair(
    alloc: Global,
    text: &mut Vec<u8>,
    u: &TypedUnit,
    instances: &Instances,
    a: u64,
    k: u64,
) -> Result<(), NoMemory>
    ensures { OnOk result (text.new.items ≡ text.old.items ++ specified.pair_text (whole_unit u.now) instances.now a k) }
{
    add(text, b"pair ")?;
    add_number(alloc, text, k)?;
    add(text, b" ")?;
    add_both(alloc, text, u, instances, kept_by(instances, k), a)
}

// The candidates that a pair keeps.
fn kept_by(instances: &Instances, k: u64) -> Stands
    ensures { result ≡ specified.kept_by instances.now k }
{
    if k == 0 {
        return NOBODY;
    }
    match instances.pair(k) {
        Some(twin) => Stands {
            low: if twin.keeps_low { Some(twin.low) } else { None },
            high: if twin.keeps_high {
                Some(twin.high)
            } else {
                None
            },
        },
        None => NOBODY,
    }
}

// Adds a number that finds two instances.
fn add_number_of_two(
    alloc: Global,
    text: &mut Vec<u8>,
    u: &TypedUnit,
    instances: &Instances,
    low: u64,
    high: u64,
    a: u64,
) -> Result<(), NoMemory>
    ensures { OnOk result (text.new.items ≡ text.old.items ++ specified_parts.number_of_two (whole_unit u.now) instances.now low high a) }
{
    add_address(alloc, text, a)?;
    add(text, b" ")?;
    add_two(alloc, text, u, instances, low, high, a)
}

// Adds a pointer whose bytes are a number.
fn add_found(
    alloc: Global,
    text: &mut Vec<u8>,
    u: &TypedUnit,
    instances: &Instances,
    a: u64,
) -> Result<(), NoMemory>
    ensures { OnOk result (text.new.items ≡ text.old.items ++ specified_parts.found_by (whole_unit u.now) instances.now a) }
{
    if a == 0 {
        return add_bare(alloc, text, a);
    }
    let s = instances.candidates(a);
    match s.low {
        None => match s.high {
            None => add_bare(alloc, text, a),
            Some(j) => add_place(alloc, text, u, instances, j, a),
        },
        Some(i) => match s.high {
            None => add_place(alloc, text, u, instances, i, a),
            Some(j) => add_number_of_two(alloc, text, u, instances, i, j, a),
        },
    }
}

/// Adds a pointer, or that its bytes have no value.
pub(crate) fn add_pointer(
    alloc: Global,
    text: &mut Vec<u8>,
    u: &TypedUnit,
    instances: &Instances,
    p: Option<Pointed>,
) -> Result<(), NoMemory>
    ensures { OnOk result (text.new.items ≡ text.old.items ++ specified.pointer_text (whole_unit u.now) instances.now (specified_parts.seen_pointer p)) }
{
    let Some(p) = p else {
        return add(text, b"unset");
    };
    match p.name {
        Some(name) => add_named(alloc, text, u, instances, p.address, name),
        None => add_found(alloc, text, u, instances, p.address),
    }
}
