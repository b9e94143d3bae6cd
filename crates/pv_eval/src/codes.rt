// What is known of an expression's node before a run, so that nothing of its types is looked up when it is evaluated.
ghost use Rattle.std.specs.Prelude.{◌≡◌, ◌<◌, true, IfSome, IsTrue, length};
ghost use Rattle.pv_types.specs.Known.{tree};
ghost use Rattle.pv_types.specs.Sorts.{bare_type, is_scalar_in};
ghost use Rattle.pv_typed.specs.declared.nodes.Typed.{Typed as Row};
ghost use Rattle.pv_typed.specs.Formed.{NamesIn};
ghost use Rattle.pv_typed.specs.Known.{AreKnown};
ghost use Rattle.pv_typed.specs.Children.{HasOperands};
ghost use Rattle.pv_typed.specs.TypedTree.{form_of};
ghost use Rattle.pv_typed.specs.TypedUnits.{object_at};
ghost use Rattle.pv_typed.specs.Tables.{whole_unit};
ghost use Rattle.pv_typed.specs.NodeTrees.{expression_at, IsExpression};
ghost use Rattle.pv_eval.specs.Plainly.{form_by};
ghost use Rattle.pv_eval.specs.Designated.{IsDesignated};
ghost use Rattle.pv_eval.specs.Codes.{IsCode, IsIntegerPlace, IsPointerPlace, IsGivenBy, IsObjectOf, IsOperandCode, IsRounded};

use crate::members::{Designated, in_structure};
use crate::plain_places::pointed_size;
use crate::types::{is_none, kind, pointee, shape};
use pv_layout::bare;
use pv_num::{BinOp, IntKind};
use pv_tree::NodeId;
use pv_typed::{IncrementOperator, Sign, Typed, TypedUnit};
use pv_types::{Term, TypeId};
use pv_world::Shape;

/// An operand of an operator on integers: the node that gives its value, and the kind to which that is converted, where the operand
/// is a conversion between integer types (C17 6.3.1.8).
#[derive(Clone, Copy)]
pub(crate) struct Operand {
    pub(crate) node: NodeId,
    pub(crate) to: Option<IntKind>,
}

/// A place of an integer type without qualifiers: the node that designates it, the type and its kind, and what is known of what the
/// node designates (C17 6.3.2.1p1).
#[derive(Clone, Copy)]
pub(crate) struct IntegerPlace {
    pub(crate) node: NodeId,
    pub(crate) t: TypeId,
    pub(crate) kind: IntKind,
    pub(crate) own: Designated,
}

/// A place of a pointer type without qualifiers: as `IntegerPlace`.
#[derive(Clone, Copy)]
pub(crate) struct PointerPlace {
    pub(crate) node: NodeId,
    pub(crate) t: TypeId,
    pub(crate) own: Designated,
}

/// What is known of an expression's node.
#[derive(Clone, Copy)]
pub(crate) enum Code {
    /// Nothing: the node itself is looked at.
    Unknown,
    /// A constant, by its value (C17 6.4.4).
    Number(i64),
    /// The object that an identifier designates, and whether its storage is static (6.5.1p2).
    Object(u32, bool),
    /// What the operand gives: the pointer to an array's first element (6.3.2.1p3), the address of an lvalue (6.5.3.2p3), what a
    /// pointer points to (6.5.3.2p4), or a value that whoever asks for it converts (6.3).
    Same(NodeId),
    /// The member that begins so many bytes from the operand's place (6.5.2.3p3, p4).
    Part(NodeId, u64),
    /// The integer of this type and kind at the operand's place, with what is known of what the operand designates (6.3.2.1p2).
    Integer(NodeId, TypeId, IntKind, Designated),
    /// The same where the operand is the object of this number, which was declared with this type, with whether its storage is static.
    OwnInteger(NodeId, TypeId, IntKind, u32, bool),
    /// The pointer of this type at the operand's place, with what is known of what the operand designates (6.3.2.1p2).
    Pointer(NodeId, TypeId, Designated),
    /// The same where the operand is the object of this number, which was declared with this type, with whether its storage is static.
    OwnPointer(NodeId, TypeId, u32, bool),
    /// An operator on two integers, which works in the kind (6.5.5 to 6.5.12).
    Arithmetic(BinOp, IntKind, Operand, Operand),
    /// The element of so many bytes that the second operand counts from the place on that the first one gives (6.5.2.1p2).
    Element(NodeId, NodeId, u64),
    /// A pointer moved by an integer, of elements of so many bytes (6.5.6p8).
    Sum(Sign, NodeId, NodeId, u64),
    /// An integer assigned to a place (6.5.16.1p2).
    Assign(IntegerPlace, Operand),
    /// What a node gives, which is no conversion, assigned to a place of a pointer type (6.5.16.1p2).
    AssignPointer(PointerPlace, NodeId),
    /// 1 added to the integer at a place, or taken off it, in this kind (6.5.2.4p2, 6.5.3.1p2).
    Increment(IntegerPlace, IncrementOperator, IntKind),
    /// An operator, which works in the first kind, on the integer at a place, and its result converted to the second (6.5.16.2p3).
    Compound(IntegerPlace, Operand, BinOp, IntKind, IntKind),
}

/// Whether an object's declared type is, qualifiers aside, the one of this number.
fn has_type(unit: &TypedUnit, o: u32, t: TypeId) -> bool
    requires known { AreKnown unit.now }
    requires there { o < length unit.now.objects }
    ensures { IsTrue result → bare_type (object_at (whole_unit unit.now) o).t ≡ tree unit.now.known t.0 }
{
    bare(unit.types(), unit.object(o).t).0 == t.0
}

/// The object that a node of this type designates, with that as its declared type, qualifiers aside, and whether its storage is static.
fn named_object(unit: &TypedUnit, a: NodeId, t: TypeId) -> Option<(u32, bool)>
    requires known { AreKnown unit.now }
    requires there { IsExpression unit.now a }
    ensures object { IfSome result (λ x. IsObjectOf unit.now a x.0 x.1) }
    ensures own { IfSome result (λ x. bare_type (object_at (whole_unit unit.now) x.0).t ≡ tree unit.now.known t.0) }
{
    match unit.node(a) {
        Typed::Object(o) => {
            if has_type(unit, o, t) {
                Some((o, unit.object(o).lasting))
            } else {
                None
            }
        }
        _ => None,
    }
}

/// A node that reads at the place of its operand.
fn read_code(unit: &TypedUnit, n: NodeId, a: NodeId) -> Code
    requires known { AreKnown unit.now }
    requires there { IsExpression unit.now a }
    requires less { a.0 < n.0 }
    requires form { form_of (expression_at unit.now n) ≡ form_by unit.now (Row.Read a) }
    ensures { IsCode unit.now n result }
{
    let t = bare(unit.types(), unit.type_of(a));
    let own = in_structure(unit, a, t);
    match unit.types().view(t) {
        Term::Int(kind) => match named_object(unit, a, t) {
            Some((o, lasting)) => Code::OwnInteger(a, t, kind, o, lasting),
            None => Code::Integer(a, t, kind, own),
        },
        Term::Pointer(_) => match named_object(unit, a, t) {
            Some((o, lasting)) => Code::OwnPointer(a, t, o, lasting),
            None => Code::Pointer(a, t, own),
        },
        _ => Code::Unknown,
    }
}

/// The kind to which a value is converted from an integer type to an integer type.
fn rounding(unit: &TypedUnit, from: TypeId, to: TypeId) -> Option<IntKind>
    ensures { IfSome result (λ k. IsRounded (tree unit.now.known from.0) (tree unit.now.known to.0) k) }
{
    let Shape::Int(_) = shape(unit.types(), from) else {
        return None;
    };
    let Shape::Int(kind) = shape(unit.types(), to) else {
        return None;
    };
    Some(kind)
}

/// An operand of an operator on integers, if it is no conversion or one between integer types.
fn operand_code(unit: &TypedUnit, a: NodeId) -> Option<Operand>
    requires { IsExpression unit.now a }
    ensures { IfSome result (IsOperandCode unit.now a) }
{
    match unit.node(a) {
        Typed::Convert(inner) => {
            let kind = rounding(unit, unit.type_of(inner), unit.type_of(a))?;
            Some(Operand {
                node: inner,
                to: Some(kind),
            })
        }
        _ => Some(Operand { node: a, to: None }),
    }
}

/// A node with an operator on two integers.
fn arithmetic_code(unit: &TypedUnit, n: NodeId, op: BinOp, a: NodeId, d: NodeId) -> Option<Code>
    requires left { IsExpression unit.now a }
    requires right { IsExpression unit.now d }
    requires first { a.0 < n.0 }
    requires second { d.0 < n.0 }
    requires form { form_of (expression_at unit.now n) ≡ form_by unit.now (Row.Arithmetic op a d) }
    ensures { IfSome result (IsCode unit.now n) }
{
    let left = operand_code(unit, a)?;
    let right = operand_code(unit, d)?;
    let kind = kind(unit.types(), unit.type_of(a));
    Some(Code::Arithmetic(op, kind, left, right))
}

/// The node that gives what an operand gives: the array, where the operand is the pointer to its first element (C17 6.3.2.1p3), or the
/// operand itself.
fn given_by(unit: &TypedUnit, a: NodeId) -> NodeId
    requires { IsExpression unit.now a }
    ensures { IsGivenBy unit.now a result }
{
    match unit.node(a) {
        Typed::ArrayPointer(array) => array,
        _ => a,
    }
}

/// A node that designates an element.
fn element_code(unit: &TypedUnit, n: NodeId, a: NodeId, d: NodeId) -> Option<Code>
    requires left { IsExpression unit.now a }
    requires right { IsExpression unit.now d }
    requires first { a.0 < n.0 }
    requires second { d.0 < n.0 }
    requires form { form_of (expression_at unit.now n) ≡ form_by unit.now (Row.Subscript a d) }
    ensures { IfSome result (IsCode unit.now n) }
{
    let size = pointed_size(unit, unit.type_of(a))?;
    Some(Code::Element(given_by(unit, a), d, size))
}

/// A node that moves a pointer by an integer.
fn sum_code(unit: &TypedUnit, n: NodeId, sign: Sign, a: NodeId, d: NodeId) -> Option<Code>
    requires there { IsExpression unit.now n }
    requires left { IsExpression unit.now a }
    requires right { IsExpression unit.now d }
    requires first { a.0 < n.0 }
    requires second { d.0 < n.0 }
    requires form { form_of (expression_at unit.now n) ≡ form_by unit.now (Row.PointerSum sign a d) }
    ensures { IfSome result (IsCode unit.now n) }
{
    let _ = pointee(unit.types(), unit.type_of(a))?;
    let size = pointed_size(unit, unit.type_of(n))?;
    Some(Code::Sum(sign, a, d, size))
}

/// The object that a node of this type designates, with that as its declared type, qualifiers aside.
fn own_object(unit: &TypedUnit, a: NodeId, t: TypeId) -> Option<u32>
    requires known { AreKnown unit.now }
    requires there { IsExpression unit.now a }
    ensures { IfSome result (λ o. bare_type (object_at (whole_unit unit.now) o).t ≡ tree unit.now.known t.0) }
{
    let Some((o, _)) = named_object(unit, a, t) else {
        return None;
    };
    Some(o)
}

/// What is known of what a node of this scalar type designates.
fn designated(unit: &TypedUnit, a: NodeId, t: TypeId) -> Designated
    requires known { AreKnown unit.now }
    requires there { IsExpression unit.now a }
    requires scalar { is_scalar_in (tree unit.now.known t.0) ≡ true }
    ensures { IsDesignated unit.now result t }
{
    match own_object(unit, a, t) {
        Some(o) => Designated::Object(o),
        None => in_structure(unit, a, t),
    }
}

/// The place of an integer type without qualifiers that a node designates.
fn integer_place(unit: &TypedUnit, a: NodeId) -> Option<IntegerPlace>
    requires known { AreKnown unit.now }
    requires there { IsExpression unit.now a }
    ensures place { IfSome result (IsIntegerPlace unit.now) }
    ensures node { IfSome result (λ p. p.node ≡ a) }
{
    let t = unit.type_of(a);
    let Term::Int(kind) = unit.types().view(t) else {
        return None;
    };
    let own = designated(unit, a, t);
    Some(IntegerPlace {
        node: a,
        t,
        kind,
        own,
    })
}

/// The place of a pointer type without qualifiers that a node designates.
fn pointer_place(unit: &TypedUnit, a: NodeId) -> Option<PointerPlace>
    requires known { AreKnown unit.now }
    requires there { IsExpression unit.now a }
    ensures place { IfSome result (IsPointerPlace unit.now) }
    ensures node { IfSome result (λ p. p.node ≡ a) }
{
    let t = unit.type_of(a);
    let Term::Pointer(_) = unit.types().view(t) else {
        return None;
    };
    let own = designated(unit, a, t);
    Some(PointerPlace { node: a, t, own })
}

/// A node that assigns an integer to a place.
fn assignment_code(unit: &TypedUnit, n: NodeId, a: NodeId, d: NodeId) -> Option<Code>
    requires known { AreKnown unit.now }
    requires left { IsExpression unit.now a }
    requires right { IsExpression unit.now d }
    requires second { d.0 < n.0 }
    requires form { form_of (expression_at unit.now n) ≡ form_by unit.now (Row.Assign a d) }
    ensures { IfSome result (IsCode unit.now n) }
{
    let place = integer_place(unit, a)?;
    let right = operand_code(unit, d)?;
    Some(Code::Assign(place, right))
}

/// A node that assigns what is no conversion to a place of a pointer type.
fn pointer_assignment_code(unit: &TypedUnit, n: NodeId, a: NodeId, d: NodeId) -> Option<Code>
    requires known { AreKnown unit.now }
    requires left { IsExpression unit.now a }
    requires right { IsExpression unit.now d }
    requires form { form_of (expression_at unit.now n) ≡ form_by unit.now (Row.Assign a d) }
    ensures { IfSome result (IsCode unit.now n) }
{
    let place = pointer_place(unit, a)?;
    match unit.node(d) {
        Typed::Convert(_) => None,
        _ => Some(Code::AssignPointer(place, d)),
    }
}

/// A node that assigns an integer or a pointer to a place.
fn assigned_code(unit: &TypedUnit, n: NodeId, a: NodeId, d: NodeId) -> Option<Code>
    requires known { AreKnown unit.now }
    requires left { IsExpression unit.now a }
    requires right { IsExpression unit.now d }
    requires second { d.0 < n.0 }
    requires form { form_of (expression_at unit.now n) ≡ form_by unit.now (Row.Assign a d) }
    ensures { IfSome result (IsCode unit.now n) }
{
    match assignment_code(unit, n, a, d) {
        Some(code) => Some(code),
        None => pointer_assignment_code(unit, n, a, d),
    }
}

/// A node with `++` or `--` of an integer at a place.
fn increment_code(unit: &TypedUnit, n: NodeId, o: IncrementOperator, a: NodeId) -> Option<Code>
    requires known { AreKnown unit.now }
    requires there { IsExpression unit.now n }
    requires left { IsExpression unit.now a }
    requires form { form_of (expression_at unit.now n) ≡ form_by unit.now (Row.Increment o a) }
    ensures { IfSome result (IsCode unit.now n) }
{
    let place = integer_place(unit, a)?;
    let Shape::Int(back) = shape(unit.types(), unit.type_of(n)) else {
        return None;
    };
    Some(Code::Increment(place, o, back))
}

/// A node with a compound assignment of an integer to a place.
fn compound_code(
    unit: &TypedUnit,
    n: NodeId,
    op: BinOp,
    at: IntKind,
    a: NodeId,
    d: NodeId,
) -> Option<Code>
    requires known { AreKnown unit.now }
    requires there { IsExpression unit.now n }
    requires left { IsExpression unit.now a }
    requires right { IsExpression unit.now d }
    requires second { d.0 < n.0 }
    requires form { form_of (expression_at unit.now n) ≡ form_by unit.now (Row.CompoundAssign op at a d) }
    ensures { IfSome result (IsCode unit.now n) }
{
    let place = integer_place(unit, a)?;
    let right = operand_code(unit, d)?;
    let back = kind(unit.types(), unit.type_of(n));
    Some(Code::Compound(place, right, op, at, back))
}

/// A node that designates what a pointer points to, which is not `void`.
fn followed_code(unit: &TypedUnit, n: NodeId, a: NodeId) -> Option<Code>
    requires there { IsExpression unit.now n }
    requires operand { IsExpression unit.now a }
    requires less { a.0 < n.0 }
    requires form { form_of (expression_at unit.now n) ≡ form_by unit.now (Row.Indirection a) }
    ensures { IfSome result (IsCode unit.now n) }
{
    if is_none(unit.types(), unit.type_of(n)) {
        None
    } else {
        Some(Code::Same(a))
    }
}

/// What is known of a node, by its form.
fn form_code(unit: &TypedUnit, n: NodeId, x: Typed) -> Option<Code>
    requires known { AreKnown unit.now }
    requires there { IsExpression unit.now n }
    requires named { NamesIn unit.now x }
    requires operands { HasOperands unit.now.rows unit.now.lists n.0 x }
    requires form { form_of (expression_at unit.now n) ≡ form_by unit.now x }
    ensures { IfSome result (IsCode unit.now n) }
{
    match x {
        Typed::Constant(k) => Some(Code::Number(k)),
        Typed::Object(o) => Some(Code::Object(o, unit.object(o).lasting)),
        Typed::ArrayPointer(a) => Some(Code::Same(a)),
        Typed::Address(a) => Some(Code::Same(a)),
        Typed::Convert(a) => Some(Code::Same(a)),
        Typed::Indirection(a) => followed_code(unit, n, a),
        Typed::Member(a, offset) => Some(Code::Part(a, offset)),
        Typed::Arrow(a, offset) => Some(Code::Part(a, offset)),
        Typed::Read(a) => Some(read_code(unit, n, a)),
        Typed::Arithmetic(op, a, d) => arithmetic_code(unit, n, op, a, d),
        Typed::Subscript(a, d) => element_code(unit, n, a, d),
        Typed::PointerSum(sign, a, d) => sum_code(unit, n, sign, a, d),
        Typed::Assign(a, d) => assigned_code(unit, n, a, d),
        Typed::Increment(o, a) => increment_code(unit, n, o, a),
        Typed::CompoundAssign(op, at, a, d) => compound_code(unit, n, op, at, a, d),
        _ => None,
    }
}

/// What is known of a node: of one that is no expression's nothing is.
pub(crate) fn code_of(unit: &TypedUnit, n: NodeId) -> Code
    requires known { AreKnown unit.now }
    requires within { n.0 < length unit.now.rows }
    ensures { IsExpression unit.now n → IsCode unit.now n result }
{
    if !unit.is_expression(n) {
        return Code::Unknown;
    }
    match form_code(unit, n, unit.node(n)) {
        Some(code) => code,
        None => Code::Unknown,
    }
}
