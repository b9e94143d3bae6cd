// Address constants, and what `constant` answers.
ghost use Rattle.std.specs.Prelude.{◌≡◌, ◌<◌, ◌≤◌, ◌^◌, ◌-◌, ◌*ℤ◌, ◌+ℤ◌, ◌≤ℤ◌, ℤ, pos, neg_ℤ, Bool, Some, None, IfSome, length, is_some};
ghost use Rattle.std.specs.Option.{option_map};
ghost use Rattle.std.specs.declared.option.Option.{Option};
ghost use Rattle.pv_types.specs.Known.{tree};
ghost use Rattle.pv_typed.specs.TypedTree.{type_of, form_of, is_function};
ghost use Rattle.pv_typed.specs.TypedUnits.{object_at};
ghost use Rattle.pv_typed.specs.Tables.{Stored, whole_unit};
ghost use Rattle.pv_typed.specs.NodeTrees.{IsExpression, expression_at};
ghost use Rattle.pv_typed.specs.Known.{AreKnown};
ghost use Rattle.pv_typed.specs.Constants.{integer};
ghost use Rattle.pv_typed.specs.Places.{IsNumber, IsPlace, IsDistance};
ghost use Rattle.pv_typed.specs.Addresses.{size_in, within, bytes_on, signed_count, elements_on, null_if, address, place, constant_of, is_null_constant, truth_in};
ghost use Rattle.pv_types.specs.Sorts.{pointed_by, is_pointer};
ghost use Rattle.pv_typed.specs.AddressParts.{lasting_at, or_zero};

use crate::nodes::{Sign, Typed};
use crate::numbers::{integer, kind_at};
use crate::unit::TypedUnit;
use crate::values::Const;
use pv_num::IntKind;
use pv_tree::NodeId;
use pv_types::{Term, TypeId, Types};

/// What a pointer type points to, qualifiers aside.
fn pointee(types: &Types, t: TypeId) -> Option<TypeId>
    requires { t.0 < length types.now.terms }
    ensures value { option_map (λ (e : TypeId). tree types.now e.0) result ≡ pointed_by (tree types.now t.0) }
    ensures known { IfSome result (λ e. e.0 < length types.now.terms) }
{
    match types.view(t) {
        Term::Pointer(e) => Some(e),
        Term::Const(inner) => pointee(types, inner),
        _ => None,
    }
}

/// The size of a complete object type, up to the greatest that an object may have.
fn size_in(u: &TypedUnit, t: TypeId) -> Option<u64>
    requires { t.0 < length u.now.known.terms }
    ensures value { result ≡ size_in (whole_unit u.now) (tree u.now.known t.0) }
    ensures small { IfSome result (λ n. n ≤ 2 ^ 32) }
{
    if u.types().is_complete(t) {
        u.types().extent(t).size
    } else {
        None
    }
}

/// How far addresses within an instance may go.
fn bound_at(u: &TypedUnit, o: u32) -> u64
    requires object { o < length u.now.objects }
    requires known { AreKnown u.now }
    ensures value { result ≡ or_zero (size_in (whole_unit u.now) (object_at (whole_unit u.now) o).t) }
    ensures small { result ≤ 2 ^ 32 }
{
    match size_in(u, u.object(o).t) {
        Some(n) => n,
        None => 0,
    }
}

/// An offset from 0 to a size.
fn within(size: u64, z: i128) -> Option<u64>
    ensures value { result ≡ within size z }
    ensures small { IfSome result (λ n. n ≤ size) }
{
    if z < 0 {
        return None;
    }
    if z <= size as i128 {
        Some(z as u64)
    } else {
        None
    }
}

/// An address moved by so many bytes, where it stays within its instance.
fn moved(u: &TypedUnit, by: i128, p: Const) -> Option<Const>
    requires known { AreKnown u.now }
    requires there { IsPlace u.now p }
    requires far { IsDistance by }
    ensures value { result ≡ bytes_on (whole_unit u.now) by p }
    ensures there { IfSome result (λ q. IsPlace u.now q) }
{
    match p {
        Const::Address { object, offset } => {
            let to = within(bound_at(u, object), plus(offset, by))?;
            Some(Const::Address { object, offset: to })
        }
        Const::Literal { text, offset } => {
            let to = within(u.literal(text).len() as u64, plus(offset, by))?;
            Some(Const::Literal { text, offset: to })
        }
        _ => None,
    }
}

/// An offset and a distance, exactly.
fn plus(offset: u64, by: i128) -> i128
    requires { IsDistance by }
    ensures { result ≡ pos offset +ℤ by }
{
    offset as i128 + by
}

/// A number of elements and the size of one, exactly.
fn times(i: i128, size: u64) -> i128
    requires number { (neg_ℤ (pos (2 ^ 64 - 1)) ≤ℤ i) × (i ≤ℤ pos (2 ^ 64 - 1)) }
    requires small { size ≤ 2 ^ 32 }
    ensures value { result ≡ i *ℤ pos size }
    ensures far { IsDistance result }
{
    i * size as i128
}

/// An integer, or its negative.
fn signed(sign: Sign, i: i128) -> i128
    requires { IsNumber i }
    ensures value { result ≡ signed_count sign i }
    ensures far { (neg_ℤ (pos (2 ^ 64 - 1)) ≤ℤ result) × (result ≤ℤ pos (2 ^ 64 - 1)) }
{
    match sign {
        Sign::Plus => i,
        Sign::Minus => -i,
    }
}

/// An address moved by so many elements of a type.
fn stepped(u: &TypedUnit, sign: Sign, t: TypeId, p: Const, i: i128) -> Option<Const>
    requires known { AreKnown u.now }
    requires typed { t.0 < length u.now.known.terms }
    requires there { IsPlace u.now p }
    requires number { IsNumber i }
    ensures value { result ≡ elements_on (whole_unit u.now) sign (tree u.now.known t.0) (Some p) (Some i) }
    ensures there { IfSome result (λ q. IsPlace u.now q) }
{
    let n = size_in(u, t)?;
    moved(u, times(signed(sign, i), n), p)
}

/// The null pointer, for the number 0.
fn null_if(n: Option<i128>) -> Option<Const>
    ensures value { result ≡ null_if n }
    ensures there { (s : Stored) → IfSome result (λ q. IsPlace s q) }
{
    let n = n?;
    if n == 0 { Some(Const::Null) } else { None }
}

/// The address of an object with static storage.
fn lasting_at(u: &TypedUnit, o: u32) -> Option<Const>
    requires { o < length u.now.objects }
    ensures value { result ≡ lasting_at (whole_unit u.now) o }
    ensures there { IfSome result (λ q. IsPlace u.now q) }
{
    if u.object(o).lasting {
        Some(Const::Address {
            object: o,
            offset: 0,
        })
    } else {
        None
    }
}

/// Whether an expression has a pointer type.
fn is_pointer_at(u: &TypedUnit, e: NodeId) -> bool
    requires node { IsExpression u.now e }
    requires known { AreKnown u.now }
    ensures { result ≡ is_pointer (type_of (expression_at u.now e)) }
{
    pointee(u.types(), u.type_of(e)).is_some()
}

/// Whether an expression is a function designator.
fn is_function_at(u: &TypedUnit, e: NodeId) -> bool
    requires node { IsExpression u.now e }
    requires known { AreKnown u.now }
    ensures { result ≡ is_function (type_of (expression_at u.now e)) }
{
    matches!(u.types().view(u.type_of(e)), Term::Function { .. })
}

/// The pointer that an expression is.
#[cycle(address)]
fn address(u: &TypedUnit, e: NodeId) -> Option<Const>
    requires node { IsExpression u.now e }
    requires known { AreKnown u.now }
    ensures value { result ≡ address (whole_unit u.now) (expression_at u.now e) }
    ensures there { IfSome result (λ q. IsPlace u.now q) }
{
    match u.node(e) {
        Typed::ArrayPointer(a) | Typed::Address(a) => place(u, a),
        Typed::Cast(a) | Typed::Convert(a) => {
            if !is_pointer_at(u, e) {
                return None;
            }
            if kind_at(u, a).is_some() {
                null_if(integer(u, a))
            } else {
                address(u, a)
            }
        }
        Typed::PointerSum(sign, a, b) => {
            let t = pointee(u.types(), u.type_of(e))?;
            if is_pointer_at(u, a) {
                let p = address(u, a)?;
                let i = integer(u, b)?;
                stepped(u, sign, t, p, i)
            } else {
                let p = address(u, b)?;
                let i = integer(u, a)?;
                stepped(u, sign, t, p, i)
            }
        }
        _ => None,
    }
}

/// The place of an lvalue.
#[cycle(address)]
fn place(u: &TypedUnit, e: NodeId) -> Option<Const>
    requires node { IsExpression u.now e }
    requires known { AreKnown u.now }
    ensures value { result ≡ place (whole_unit u.now) (expression_at u.now e) }
    ensures there { IfSome result (λ q. IsPlace u.now q) }
{
    match u.node(e) {
        Typed::Object(o) => lasting_at(u, o),
        Typed::Function(f) => Some(Const::Function { function: f }),
        Typed::String(l) => Some(Const::Literal { text: l, offset: 0 }),
        Typed::Subscript(a, b) => {
            let t = u.type_of(e);
            if is_pointer_at(u, a) {
                let p = address(u, a)?;
                let i = integer(u, b)?;
                stepped(u, Sign::Plus, t, p, i)
            } else {
                let p = address(u, b)?;
                let i = integer(u, a)?;
                stepped(u, Sign::Plus, t, p, i)
            }
        }
        Typed::Member(a, offset) => {
            let p = place(u, a)?;
            moved(u, offset as i128, p)
        }
        Typed::Arrow(a, offset) => {
            let p = address(u, a)?;
            moved(u, offset as i128, p)
        }
        Typed::Indirection(a) => {
            if is_function_at(u, e) {
                return None;
            }
            address(u, a)
        }
        _ => None,
    }
}

/// Whether a pointer is stored in a `_Bool` as 1 (C17 6.3.1.2).
fn truth_in(u: &TypedUnit, e: NodeId) -> Option<Const>
    requires node { IsExpression u.now e }
    requires known { AreKnown u.now }
    ensures { result ≡ truth_in (whole_unit u.now) (type_of (expression_at u.now e)) (form_of (expression_at u.now e)) }
{
    match u.types().view(u.type_of(e)) {
        Term::Int(IntKind::Bool) => {}
        _ => return None,
    }
    match u.node(e) {
        Typed::Convert(a) => match address(u, a)? {
            Const::Null => Some(Const::Int(0)),
            _ => Some(Const::Int(1)),
        },
        _ => None,
    }
}

/// The value of a constant expression (C17 6.6), none where the expression is none.
///
/// It is an integer constant expression, an address constant or a null pointer constant: what may initialize an object
/// with static storage. An address that is converted to `_Bool` in order to be stored is its truth value.
pub fn constant(u: &TypedUnit, e: NodeId) -> Option<Const>
    requires node { IsExpression u.now e }
    requires known { AreKnown u.now }
    ensures { result ≡ constant_of (whole_unit u.now) (expression_at u.now e) }
{
    if kind_at(u, e).is_some() {
        if let Some(n) = integer(u, e) {
            return Some(Const::Int(n));
        }
        return truth_in(u, e);
    }
    if is_pointer_at(u, e) {
        address(u, e)
    } else {
        None
    }
}

/// Whether an expression is a null pointer constant (C17 6.3.2.3p3).
pub fn is_null_constant(u: &TypedUnit, e: NodeId) -> bool
    requires node { IsExpression u.now e }
    requires known { AreKnown u.now }
    ensures { result ≡ is_null_constant (expression_at u.now e) }
{
    if kind_at(u, e).is_some() {
        return null_if(integer(u, e)).is_some();
    }
    let Term::Pointer(t) = u.types().view(u.type_of(e)) else {
        return false;
    };
    let Term::Void = u.types().view(t) else {
        return false;
    };
    match u.node(e) {
        Typed::Cast(a) => {
            if kind_at(u, a).is_none() {
                return false;
            }
            null_if(integer(u, a)).is_some()
        }
        _ => false,
    }
}
