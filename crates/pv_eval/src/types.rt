// What operations ask of a type (C17 6.2.5, 6.3, 6.5.3.4). A number that is that of no type is as `void`.
ghost use Rattle.std.specs.Prelude.{◌≡◌, ◌≤◌, ◌<◌, ◌&&◌, true, length, IsTrue, IfSome, IfNone, is_some};
ghost use Rattle.pv_types.specs.Ty.{VoidTy, IntTy};
ghost use Rattle.pv_types.specs.Layouts.{up_to, is_complete_in, layout_in};
ghost use Rattle.pv_types.specs.Known.{tree, trees, env, tree_in};
ghost use Rattle.pv_types.specs.Formed.{PartsBelow};
ghost use Rattle.pv_types.specs.Sorts.{is_character, is_void, is_pointer};
ghost use Rattle.pv_world.specs.Hows.{IsHow};
ghost use Rattle.pv_eval.specs.TypeForms.{alignment_by, shape_of, kind_of, is_constant, pointed_to};
ghost use Rattle.pv_eval.specs.Conversions.{how_to_int};
ghost use Rattle.pv_world.specs.Suiting.{is_size};
ghost use Rattle.pv_eval.specs.Sizes.{size_in, number_in, alignment_in, how_in, element_in, IsComplete, points};

use pv_layout::{bare, measure};
use pv_num::{IntKind, is_character_kind};
use pv_types::{Term, TypeId, Types, bytes_of};
use pv_world::{How, Shape};

/// The outermost layer of a type.
#[tactic(auto, using(crate::proofs::Numbers::outside))]
pub(crate) fn layer(types: &Types, t: TypeId) -> Term
    ensures tree { tree types.now t.0 ≡ tree_in types.now.lists (trees types.now) result }
    ensures earlier { PartsBelow types.now.lists t.0 result }
{
    if types.has(t) {
        types.view(t)
    } else {
        Term::Void
    }
}

/// Whether it is a complete object type (C17 6.2.5p1).
#[tactic(auto, using(crate::proofs::Numbers::outside))]
pub(crate) fn is_complete(types: &Types, t: TypeId) -> bool
    ensures complete { result ≡ is_complete_in (env types.now) (tree types.now t.0) }
    ensures known { result ≡ true → t.0 < length types.now.terms }
{
    if types.has(t) {
        types.is_complete(t)
    } else {
        false
    }
}

/// How the bytes of an lvalue of the type are looked at (C17 6.3.2.1p2).
pub(crate) fn shape(types: &Types, t: TypeId) -> Shape
    ensures { result ≡ shape_of (tree types.now t.0) }
{
    let mut at = t;
    'layers: loop {
        match layer(types, at) {
            Term::Int(kind) => return Shape::Int(kind),
            Term::Pointer(_) => return Shape::Pointer,
            Term::Const(inner) => at = inner,
            _ => return Shape::Whole,
        }
    }
}

/// The kind of an integer type.
pub(crate) fn kind(types: &Types, t: TypeId) -> IntKind
    ensures { result ≡ kind_of (tree types.now t.0) }
{
    let mut at = t;
    'layers: loop {
        match layer(types, at) {
            Term::Int(kind) => return kind,
            Term::Const(inner) => at = inner,
            _ => return IntKind::Int,
        }
    }
}

/// What a pointer type points to, if it is one.
pub(crate) fn pointee(types: &Types, t: TypeId) -> Option<TypeId>
    ensures pointer { is_pointer (tree types.now t.0) ≡ is_some result }
    ensures tree { IfSome result (λ u. tree types.now u.0 ≡ pointed_to (tree types.now t.0)) }
    ensures none { IfNone result (pointed_to (tree types.now t.0) ≡ VoidTy) }
{
    let mut at = t;
    'layers: loop {
        match layer(types, at) {
            Term::Pointer(to) => return Some(to),
            Term::Const(inner) => at = inner,
            _ => return None,
        }
    }
}

/// Whether a value of the type is nothing: `void` (C17 6.2.5p19).
pub(crate) fn is_none(types: &Types, t: TypeId) -> bool
    ensures { result ≡ is_void (tree types.now t.0) }
{
    let mut at = t;
    'layers: loop {
        match layer(types, at) {
            Term::Void => return true,
            Term::Const(inner) => at = inner,
            _ => return false,
        }
    }
}

/// Whether an object of the type is const-qualified, or its innermost elements are (C17 6.7.3p6, p9).
pub(crate) fn is_constant(types: &Types, t: TypeId) -> bool
    ensures { result ≡ is_constant (tree types.now t.0) }
{
    let mut at = t;
    'layers: loop {
        match layer(types, at) {
            Term::Const(_) => return true,
            Term::Array(element, _) => at = element,
            _ => return false,
        }
    }
}

/// Whether it is a character type (C17 6.2.5p15).
pub(crate) fn is_character(types: &Types, t: TypeId) -> bool
    ensures { result ≡ is_character (tree types.now t.0) }
{
    let mut at = t;
    'layers: loop {
        match layer(types, at) {
            Term::Int(kind) => return is_character_kind(kind),
            Term::Const(inner) => at = inner,
            _ => return false,
        }
    }
}

/// How many bytes an object of the type takes, where that is at most 2^32; 0, where the type is not complete
/// (C17 6.2.6.1p4). Most are integer or pointer types, and need no search.
pub(crate) fn size_of(types: &Types, t: TypeId) -> Option<u64>
    ensures { result ≡ up_to (size_in types.now (tree types.now t.0)) }
{
    match layer(types, t) {
        Term::Int(kind) => Some(bytes_of(kind)),
        Term::Pointer(_) => Some(8),
        _ => searched_size(types, t),
    }
}

/// The same, by a search through the layers of the type.
#[tactic(auto, using(crate::proofs::Numbers::no_size))]
fn searched_size(types: &Types, t: TypeId) -> Option<u64>
    ensures { result ≡ up_to (size_in types.now (tree types.now t.0)) }
{
    if is_complete(types, t) {
        measure(types, t)
    } else {
        Some(0)
    }
}

/// A complete object type, and its size.
#[derive(Clone, Copy)]
pub(crate) struct Complete {
    pub(crate) t: TypeId,
    pub(crate) size: u64,
}

/// The type, where it is a complete object type (C17 6.2.5p1) of at most 2^32 bytes. Most are integer or pointer types without
/// `const`, and need no search.
#[inline(always)]
pub(crate) fn measured(types: &Types, t: TypeId) -> Option<Complete>
    ensures test { is_some result ≡ (is_complete_in (env types.now) (tree types.now t.0) && is_size (size_in types.now (tree types.now t.0))) }
    ensures same { IfSome result (λ l. l.t ≡ t) }
    ensures complete { IfSome result (λ l. IsComplete types.now l) }
{
    match accessed_scalar(types, t) {
        Some(x) => Some(x.l),
        None => measured_by_layers(types, t),
    }
}

/// The type, where it is a complete object type of at most 2^32 bytes, by a search through its layers.
#[tactic(auto, using(crate::proofs::Numbers::kept, crate::proofs::Numbers::lost))]
pub(crate) fn measured_by_layers(types: &Types, t: TypeId) -> Option<Complete>
    ensures test { is_some result ≡ (is_complete_in (env types.now) (tree types.now t.0) && is_size (size_in types.now (tree types.now t.0))) }
    ensures same { IfSome result (λ l. l.t ≡ t) }
    ensures complete { IfSome result (λ l. IsComplete types.now l) }
{
    if is_complete(types, t) {
        match types.extent(t).size {
            Some(size) => Some(Complete { t, size }),
            None => None,
        }
    } else {
        None
    }
}

/// What the address of an object of the type is a multiple of; 1, where the type is not complete (C17 6.2.8p1). Most are integer
/// or pointer types without `const`, and need no search.
#[inline(always)]
pub(crate) fn align_of(types: &Types, t: TypeId) -> u64
    ensures align { result ≡ alignment_by (env types.now) (tree types.now t.0) }
    ensures some { 1 ≤ result }
{
    match accessed_scalar(types, t) {
        Some(x) => x.align,
        None => align_by_layers(types, t),
    }
}

/// What the address of an object of the type is a multiple of; 1, where the type is not complete, by a search through its layers.
#[tactic(auto, using(crate::proofs::Numbers::some_align))]
fn align_by_layers(types: &Types, t: TypeId) -> u64
    ensures align { result ≡ alignment_by (env types.now) (tree types.now t.0) }
    ensures some { 1 ≤ result }
{
    if is_complete(types, t) {
        types.extent(t).align
    } else {
        1
    }
}

/// A complete object type as an access looks at it: its size, what its address is a multiple of, and how its bytes are looked at.
#[derive(Clone, Copy)]
pub(crate) struct AccessedType {
    pub(crate) l: Complete,
    pub(crate) align: u64,
    pub(crate) form: Shape,
}

/// The type as an access looks at it, by a search through its layers.
fn accessed_by_layers(types: &Types, t: TypeId) -> Option<AccessedType>
    ensures same { IfSome result (λ x. x.l.t ≡ t) }
    ensures complete { IfSome result (λ x. IsComplete types.now x.l) }
    ensures align { IfSome result (λ x. x.align ≡ (layout_in (env types.now) (tree types.now x.l.t.0)).align) }
    ensures some { IfSome result (λ x. 1 ≤ x.align) }
    ensures form { IfSome result (λ x. x.form ≡ shape_of (tree types.now x.l.t.0)) }
{
    let l = measured_by_layers(types, t)?;
    Some(AccessedType {
        l,
        align: align_by_layers(types, t),
        form: shape(types, t),
    })
}

/// An integer type without `const` as an access looks at it.
pub(crate) fn accessed_integer(types: &Types, t: TypeId, kind: IntKind) -> Option<AccessedType>
    requires known { t.0 < length types.now.terms }
    requires integer { tree types.now t.0 ≡ IntTy kind }
    ensures same { IfSome result (λ x. x.l.t ≡ t) }
    ensures complete { IfSome result (λ x. IsComplete types.now x.l) }
    ensures align { IfSome result (λ x. x.align ≡ (layout_in (env types.now) (tree types.now x.l.t.0)).align) }
    ensures some { IfSome result (λ x. 1 ≤ x.align) }
    ensures form { IfSome result (λ x. x.form ≡ shape_of (tree types.now x.l.t.0)) }
{
    let size = bytes_of(kind);
    Some(AccessedType {
        l: Complete { t, size },
        align: size,
        form: Shape::Int(kind),
    })
}

/// A pointer type without `const` as an access looks at it.
pub(crate) fn accessed_pointer(types: &Types, t: TypeId) -> Option<AccessedType>
    requires known { t.0 < length types.now.terms }
    requires pointer { IsTrue (points (tree types.now t.0)) }
    ensures same { IfSome result (λ x. x.l.t ≡ t) }
    ensures complete { IfSome result (λ x. IsComplete types.now x.l) }
    ensures align { IfSome result (λ x. x.align ≡ (layout_in (env types.now) (tree types.now x.l.t.0)).align) }
    ensures some { IfSome result (λ x. 1 ≤ x.align) }
    ensures form { IfSome result (λ x. x.form ≡ shape_of (tree types.now x.l.t.0)) }
{
    Some(AccessedType {
        l: Complete { t, size: 8 },
        align: 8,
        form: Shape::Pointer,
    })
}

/// An integer or pointer type without `const` as an access looks at it.
fn accessed_scalar(types: &Types, t: TypeId) -> Option<AccessedType>
    ensures same { IfSome result (λ x. x.l.t ≡ t) }
    ensures complete { IfSome result (λ x. IsComplete types.now x.l) }
    ensures align { IfSome result (λ x. x.align ≡ (layout_in (env types.now) (tree types.now x.l.t.0)).align) }
    ensures some { IfSome result (λ x. 1 ≤ x.align) }
    ensures form { IfSome result (λ x. x.form ≡ shape_of (tree types.now x.l.t.0)) }
{
    if !types.has(t) {
        return None;
    }
    match types.view(t) {
        Term::Int(kind) => accessed_integer(types, t, kind),
        Term::Pointer(_) => accessed_pointer(types, t),
        _ => None,
    }
}

/// The type as an access looks at it, where it is a complete object type of at most 2^32 bytes. Most are integer or pointer
/// types without `const`, and need no search.
pub(crate) fn accessed(types: &Types, t: TypeId) -> Option<AccessedType>
    ensures same { IfSome result (λ x. x.l.t ≡ t) }
    ensures complete { IfSome result (λ x. IsComplete types.now x.l) }
    ensures align { IfSome result (λ x. x.align ≡ (layout_in (env types.now) (tree types.now x.l.t.0)).align) }
    ensures some { IfSome result (λ x. 1 ≤ x.align) }
    ensures form { IfSome result (λ x. x.form ≡ shape_of (tree types.now x.l.t.0)) }
{
    match accessed_scalar(types, t) {
        Some(x) => Some(x),
        None => accessed_by_layers(types, t),
    }
}

/// The number of the type without its qualifiers, by which bytes are marked (C17 6.5p6).
#[tactic(auto, using(crate::proofs::Numbers::number_of_tree))]
pub(crate) fn number(types: &Types, t: TypeId) -> u32
    requires { t.0 < length types.now.terms }
    ensures { result ≡ number_in types.now (tree types.now t.0) }
{
    bare(types, t).0
}

/// The size of what a pointer of the type points to (C17 6.5.6p8), where that is at most 2^32.
pub(crate) fn element_size(types: &Types, t: TypeId) -> Option<u64>
    ensures { result ≡ up_to (element_in types.now (tree types.now t.0)) }
{
    match pointee(types, t) {
        Some(element) => size_of(types, element),
        None => Some(0),
    }
}

/// The conversion to an integer type (C17 6.3.1.2, 6.3.1.3, 6.3.2.3p6).
fn how_to_int(implied: bool, from: Shape, kind: IntKind) -> How
    ensures how { result ≡ how_to_int implied from kind }
    ensures right { IsHow result }
{
    match from {
        Shape::Int(old) => {
            if implied && is_character_kind(old) && is_character_kind(kind) {
                How::Passes(kind)
            } else {
                How::Rounds(kind)
            }
        }
        Shape::Pointer => match kind {
            IntKind::Bool => How::Tests,
            _ => How::Numbers(kind),
        },
        Shape::Whole => How::Rounds(kind),
    }
}

/// The conversion of a value from a type to a type (C17 6.3), by a cast or implied.
pub(crate) fn how(types: &Types, implied: bool, from: TypeId, to: TypeId) -> How
    ensures how { result ≡ how_in types.now implied (tree types.now from.0) (tree types.now to.0) }
    ensures right { IsHow result }
{
    let old = shape(types, from);
    match shape(types, to) {
        Shape::Int(kind) => how_to_int(implied, old, kind),
        Shape::Pointer => match old {
            Shape::Pointer => How::Recasts(alignment(types, to)),
            _ => How::Points,
        },
        Shape::Whole => How::Voids,
    }
}

/// What a pointer of the type is aligned for (C17 6.3.2.3p7).
fn alignment(types: &Types, t: TypeId) -> u64
    ensures align { result ≡ alignment_in types.now (tree types.now t.0) }
    ensures some { 1 ≤ result }
{
    match pointee(types, t) {
        Some(to) => align_of(types, to),
        None => 1,
    }
}
