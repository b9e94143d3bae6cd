// Characters that are read many at once: those in the one live object that a pointer's name is, whose bytes have values and
// no names, so that reading each leaves all as it was. `None` says nothing, and nothing has happened: then they are read one by one.
ghost use Rattle.std.specs.Prelude.{◌≡◌, ℤ, [], ◌+◌, ◌-◌, ◌/◌, ◌%◌, ◌<◌, ◌≤◌, ◌^◌, IfSome};
ghost use Rattle.pv_shadow.specs.Readings.{HasDigits};
ghost use Rattle.pv_libc.specs.Ahead.{HasRoom, GivesAt, IsPlainString, ComparesPlainly, DiffersPlainly, sign_or, digits_or};

use crate::characters::{further, most};
use crate::strings::sign_of;
use crate::values::{Given, Reply};
use pv_object::{Memory, Pointer, Value};
use pv_prov::Prov;
use std::alloc::Global;

/// Characters that are known ahead: so many digits of a number to the base 256, the least significant first.
#[derive(Clone, Copy)]
struct Digits {
    number: u64,
    count: u64,
}

/// No character is known ahead.
const UNKNOWN: Digits = Digits {
    number: 0,
    count: 0,
};

/// The first of the characters that are known.
#[inline(always)]
fn first(known: Digits) -> u8
    ensures { result ≡ known.number % 256 }
{
    (known.number % 256) as u8
}

/// All but the first.
#[inline(always)]
fn rest(known: Digits) -> Digits
    requires { 1 ≤ known.count }
    ensures { result ≡ record { number = known.number / 256; count = known.count - 1 } }
{
    Digits {
        number: known.number / 256,
        count: known.count - 1,
    }
}

/// As many of the next `left` characters from an address on as come before a multiple of 8, or the next one alone.
fn looked_at(memory: &Memory, a: u64, left: u64) -> Option<Digits>
    requires { 1 ≤ left }
    ensures some { IfSome result (λ r. 1 ≤ r.count) }
    ensures known { IfSome result (λ r. HasDigits memory.now.bytes a r.count r.number) }
{
    let count = left.min(8 - a % 8);
    if let Some(number) = memory.digits(a, count) {
        return Some(Digits { number, count });
    }
    // What stands behind the end of a string may have no value.
    let number = memory.digits(a, 1)?;
    Some(Digits { number, count: 1 })
}

/// The characters from an address on: those that are known, or else some of the next `left`, which are looked at.
#[inline(always)]
fn known_from(memory: &Memory, a: u64, left: u64, known: Digits) -> Option<Digits>
    requires some { 1 ≤ left }
    requires known { HasDigits memory.now.bytes a known.count known.number }
    ensures some { IfSome result (λ r. 1 ≤ r.count) }
    ensures known { IfSome result (λ r. HasDigits memory.now.bytes a r.count r.number) }
{
    if 0 < known.count {
        return Some(known);
    }
    looked_at(memory, a, left)
}

/// How many bytes lie from a pointer on in the one live object that its name is.
fn room(memory: &Memory, p: Pointer) -> Option<u64>
    ensures { IfSome result (HasRoom memory.now.table p) }
{
    let Prov::Inst(number) = p.prov else {
        return None;
    };
    let table = memory.instances();
    table.well_formed();
    let x = table.info(number)?;
    if x.kind.is_function() {
        return None;
    }
    if p.address < x.base {
        return None;
    }
    let offset = p.address - x.base;
    if offset > x.size {
        return None;
    }
    Some(most().min(x.size - offset))
}

/// A character, and what is known of those behind it.
#[derive(Clone, Copy)]
struct Next {
    character: u8,
    behind: Digits,
}

/// The character so many bytes further on.
#[inline(always)]
fn step(memory: &Memory, given: Given, i: u64, few: u64, known: Digits) -> Option<Next>
    requires told { memory.now.table.pending ≡ [] }
    requires room { HasRoom memory.now.table given.pointer few }
    requires here { i < few }
    requires known { HasDigits memory.now.bytes (given.pointer.address + i) known.count known.number }
    ensures character { IfSome result (λ r. GivesAt memory.now given i r.character) }
    ensures behind { IfSome result (λ r. HasDigits memory.now.bytes (given.pointer.address + (i + 1)) r.behind.count r.behind.number) }
{
    let at = further(given, i);
    let here = known_from(memory, at.pointer.address, few - i, known)?;
    Some(Next {
        character: first(here),
        behind: rest(here),
    })
}

/// The characters of a string before its first 0 (7.1.1p1).
pub(crate) fn plain_string(alloc: Global, memory: &Memory, given: Given) -> Option<Vec<u8>>
    ensures { IfSome result (λ v. IsPlainString memory.now given v.items) }
{
    if !memory.is_told() {
        return None;
    }
    let few = room(memory, given.pointer)?;
    let mut read = Vec::new(alloc);
    let mut known = UNKNOWN;
    for i in 0..few {
        let next = step(memory, given, i, few, known)?;
        let c = next.character;
        if c == 0 {
            return Some(read);
        }
        if read.push(c).is_err() {
            return None;
        }
        known = next.behind;
    }
    None
}

/// What a comparison of two strings replies (7.24.4.2).
pub(crate) fn plain_comparison(memory: &Memory, p: Given, q: Given) -> Option<Reply>
    ensures { IfSome result (ComparesPlainly memory.now p q) }
{
    if !memory.is_told() {
        return None;
    }
    let left_room = room(memory, p.pointer)?;
    let right_room = room(memory, q.pointer)?;
    let mut left = UNKNOWN;
    let mut right = UNKNOWN;
    for i in 0..left_room.min(right_room) {
        let one = step(memory, p, i, left_room, left)?;
        let other = step(memory, q, i, right_room, right)?;
        let a = one.character;
        let b = other.character;
        if a != b {
            return Some(sign_of(a, b));
        }
        if a == 0 {
            return Some(Reply::Value(Value::Int(0)));
        }
        left = one.behind;
        right = other.behind;
    }
    None
}

/// A character of each of two rows, at the same place in both.
#[derive(Clone, Copy)]
struct Compared {
    left: u8,
    right: u8,
}

/// Nothing is compared yet, so nothing differs.
const EQUAL: Compared = Compared { left: 0, right: 0 };

/// Of two places that were compared the one that decides: the first, unless its characters are equal (7.24.4p1).
#[inline(always)]
fn deciding(before: Compared, next: Compared) -> Compared
    ensures { (rest : ℤ) → sign_or result.left result.right rest ≡ sign_or before.left before.right (sign_or next.left next.right rest) }
{
    let a = before.left;
    let b = before.right;
    if a != b {
        return before;
    }
    next
}

/// The same of a place and the places behind it: n digits of two numbers to the base 256, the least significant first.
fn deciding_digits(before: Compared, x: u64, y: u64, n: u64) -> Compared
    ensures { (rest : ℤ) → sign_or result.left result.right rest ≡ sign_or before.left before.right (digits_or n x y rest) }
{
    let mut decided = before;
    let mut left = x;
    let mut right = y;
    for i in 0..n {
        let _ = i;
        let a = (left % 256) as u8;
        let b = (right % 256) as u8;
        decided = deciding(decided, Compared { left: a, right: b });
        left /= 256;
        right /= 256;
    }
    decided
}

/// The same, which is quick where the numbers are equal.
#[inline(always)]
fn deciding_number(before: Compared, x: u64, y: u64, n: u64) -> Compared
    ensures { (rest : ℤ) → sign_or result.left result.right rest ≡ sign_or before.left before.right (digits_or n x y rest) }
{
    if x == y {
        return before;
    }
    deciding_digits(before, x, y, n)
}

/// How many of the next `left` characters from two addresses on come before a multiple of 8 in both rows.
#[inline(always)]
fn in_both(a: u64, b: u64, left: u64) -> u64
    requires { 1 ≤ left }
    ensures eight { result ≤ 8 }
    ensures few { result ≤ left }
    ensures some { 1 ≤ result }
{
    left.min(8 - a % 8).min(8 - b % 8)
}

/// What a comparison of two rows of n characters replies (7.24.4.1). All of them are looked at, also behind a difference.
pub(crate) fn plain_difference(memory: &Memory, a: u64, b: u64, n: u64) -> Option<Reply>
    requires left { a + n ≤ 2 ^ 47 }
    requires right { b + n ≤ 2 ^ 47 }
    ensures { IfSome result (DiffersPlainly memory.now a b n) }
{
    if !memory.is_told() {
        return None;
    }
    let mut decided = EQUAL;
    let mut i = 0;
    while i < n {
        let few = in_both(a + i, b + i, n - i);
        let x = memory.digits(a + i, few)?;
        let y = memory.digits(b + i, few)?;
        decided = deciding_number(decided, x, y, few);
        i += few;
    }
    Some(sign_of(decided.left, decided.right))
}
