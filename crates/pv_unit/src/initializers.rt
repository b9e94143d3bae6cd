//! Typing initializers (C17 6.7.9).
ghost use Rattle.std.specs.Prelude.{◌≡◌, ◌<◌, ◌≤◌, ◌*◌, ◌^◌, length, IfOk, OnOk, Some, false, option_map, true};
ghost use Rattle.pv_types.specs.Known.{env, tree};
ghost use Rattle.pv_types.specs.Formed.{completions};
ghost use Rattle.pv_types.specs.Layouts.{layout_in, is_complete_in};
ghost use Rattle.pv_types.specs.Ty.{ArrayOf};
ghost use Rattle.pv_tree.specs.Tables.{expression_at as expression_of, initializer_at, is_expression, is_initializer, Is};
ghost use Rattle.pv_types.specs.Sorts.{bare_type};
ghost use Rattle.pv_typed.specs.Known.{AreKnown};
ghost use Rattle.pv_typed.specs.NodeTrees.{expression_at, IsExpression};
ghost use Rattle.pv_check.specs.Growing.{AreSized, IsType, type_if};
ghost use Rattle.pv_check.specs.Kept.{Kept, expression_if};
ghost use Rattle.pv_check.specs.Open.{IsOpen, Goes, Texts, state_in, IfAnswered};
ghost use Rattle.pv_check.specs.StringLiterals.{bytes_of_text};
ghost use Rattle.pv_check.specs.Raw.{Raw};
ghost use Rattle.pv_check.specs.Values.{as_if_assigned};
ghost use Rattle.pv_unit.specs.Initializers.{single_store, filled_type, filled_with};
ghost use Rattle.pv_unit.specs.InitializerParts.{is_allowed, zero_leaf, zero};
ghost use Rattle.pv_unit.specs.Parts.{is_text};
ghost use Rattle.pv_unit.specs.Stores.{AreStores, FillsIf, stores_if, stores_by};
ghost use Rattle.pv_unit.specs.Subobjects.{part_of, HasSpaceIf, IsPart, IsInnerIf};
ghost use Rattle.pv_unit.specs.ValueRules.{filling_text, values};
ghost use Rattle.pv_unit.specs.RuleParts.{part_stores, list_stores};

use crate::parts::{LARGEST, Subobject, first_leaf, part_at};
use crate::shapes::{Shape, shape_of};
use pv_check::{Scopes, assigned_as, bytes_of_text, interned, operand};
use pv_layout::bare;
use pv_token::Tokens;
use pv_tree::{Init as Initializer, NodeId, Unit};
use pv_typed::{Init, InitValue, TypedUnit, constant, is_null_constant};
use pv_types::{NoMemory, Term, TypeId, Types};

/// Whether the expression may initialize an object: a lasting one, if it is constant (C17 6.7.9p4).
#[tactic(auto, unfolding(crate::specs::ValueRules::values))]
fn allowed(into: &TypedUnit, lasting: bool, a: NodeId) -> bool
    requires known { AreKnown into.now }
    requires node { IsExpression into.now a }
    ensures { (texts : Texts) (s : Raw) → result ≡ is_allowed values lasting (state_in texts s into.now) (expression_at into.now a) }
{
    !lasting || constant(into, a).is_some()
}

/// The value as one of the type, converted as if by assignment (C17 6.5.16.1p1).
pub(crate) fn assigned(
    into: &mut TypedUnit,
    t: TypeId,
    a: NodeId,
) -> Result<Option<NodeId>, NoMemory>
    requires known { AreKnown into.old }
    requires target { t.0 < length into.old.known.terms }
    requires node { IsExpression into.old a }
    ensures node { IfAnswered result (IsExpression into.new) }
    ensures typed { IfOk result (λ r. expression_if into.new r ≡ as_if_assigned (tree into.old.known t.0) (expression_at into.old a)) }
    ensures kept { OnOk result (Kept into.old into.new) }
{
    let null = is_null_constant(into, a);
    let r = assigned_as(into, t, a, null)?;
    Ok(r)
}

/// One expression for a part of an object (C17 6.7.9p11).
fn single(
    s: &mut Scopes,
    u: &Unit,
    t: &Tokens,
    into: &mut TypedUnit,
    part: Subobject,
    a: NodeId,
    lasting: bool,
    out: &mut Vec<Init>,
) -> Result<Option<u64>, NoMemory>
    requires node { Is u.now is_expression a }
    requires opened { IsOpen into.old s.old }
    requires part { part.t.0 < length into.old.known.terms }
    requires stores { AreStores into.old out.old.items }
    ensures typed { IfOk result (λ r. stores_if t.now.texts s.new into.new out.new.items r ≡ stores_by (single_store values lasting (part_of into.old.known part) (expression_of u.now.forest a)) t.now.texts s.old into.old out.old.items) }
    ensures fills { IfOk result (FillsIf into.old into.new s.new out.new.items) }
    ensures one { IfAnswered result (λ n. n ≡ 1) }
{
    let Some(value) = operand(s, u, t, a, false, into)? else {
        return Ok(None);
    };
    let target = bare(into.types(), part.t);
    let Some(converted) = assigned(into, target, value)? else {
        return Ok(None);
    };
    if !allowed(into, lasting, converted) {
        return Ok(None);
    }
    let line = u.line(a);
    out.push(Init {
        offset: part.offset,
        t: target,
        line,
        what: InitValue::Node(converted),
    })?;
    Ok(Some(1))
}

/// The first scalar of the first part.
fn zero_leaf(types: &Types, part: Subobject) -> Option<Subobject>
    requires part { IsPart types.now part }
    requires sized { AreSized types.now }
    ensures part { option_map (part_of types.now) result ≡ zero_leaf (completions types.now) (part_of types.now part) }
    ensures is { IsInnerIf types.now result }
{
    match part_at(types, part, 0) {
        Some(first) => first_leaf(types, first),
        None => None,
    }
}

/// The constant of the list `{0}`, for the first scalar of a part of an object (C17 6.7.9p20).
fn zero(
    s: &mut Scopes,
    u: &Unit,
    t: &Tokens,
    into: &mut TypedUnit,
    part: Subobject,
    a: NodeId,
    lasting: bool,
    out: &mut Vec<Init>,
) -> Result<Option<u64>, NoMemory>
    requires node { Is u.now is_expression a }
    requires opened { IsOpen into.old s.old }
    requires part { IsPart into.old.known part }
    requires stores { AreStores into.old out.old.items }
    ensures typed { IfOk result (λ r. stores_if t.now.texts s.new into.new out.new.items r ≡ stores_by (zero values lasting (part_of into.old.known part) (expression_of u.now.forest a)) t.now.texts s.old into.old out.old.items) }
    ensures fills { IfOk result (FillsIf into.old into.new s.new out.new.items) }
    ensures one { IfAnswered result (λ n. n ≡ 1) }
{
    match zero_leaf(into.types(), part) {
        Some(leaf) => single(s, u, t, into, leaf, a, lasting, out),
        None => Ok(None),
    }
}

/// A literal that fills an array.
#[derive(Clone, Copy)]
struct Literal {
    /// Its number.
    number: u32,
    /// How many bytes it has, with the zero behind them.
    length: u64,
}

/// String literals in a row, of which no instance is made (C17 6.4.5p5).
fn filling(
    s: &Scopes,
    t: &Tokens,
    into: &mut TypedUnit,
    line: u32,
    first: u32,
    more: u32,
) -> Result<Literal, NoMemory>
    requires opened { IsOpen into.old s.now }
    ensures number { IfOk result (λ x. (x.number ≡ length into.old.literals) × (x.number < length into.new.literals)) }
    ensures length { IfOk result (λ x. x.length ≡ length (bytes_of_text t.now.texts first more)) }
    ensures types { OnOk result (into.new.known ≡ into.old.known) }
    ensures goes { OnOk result (Goes into.old into.new) }
    ensures state { OnOk result (state_in t.now.texts s.now into.new ≡ (filling_text line (bytes_of_text t.now.texts first more) (state_in t.now.texts s.now into.old)).state) }
{
    let bytes = bytes_of_text(s.allocator(), t, first, more)?;
    let number = into.add_literal(&bytes, line, false)?;
    Ok(Literal {
        number,
        length: bytes.len() as u64,
    })
}

/// The type of arrays of so many elements (C17 6.7.6.2).
pub(crate) fn array_of(
    into: &mut TypedUnit,
    element: TypeId,
    count: u64,
) -> Result<TypeId, NoMemory>
    requires known { AreKnown into.old }
    requires sized { AreSized into.old.known }
    requires element { element.0 < length into.old.known.terms }
    requires complete { is_complete_in (env into.old.known) (tree into.old.known element.0) ≡ true }
    requires small { count * (layout_in (env into.old.known) (tree into.old.known element.0)).size ≤ 2 ^ 32 }
    ensures number { IfOk result (λ r. r.0 < length into.new.known.terms) }
    ensures tree { IfOk result (λ r. tree into.new.known r.0 ≡ ArrayOf (tree into.old.known element.0) (Some count)) }
    ensures kept { OnOk result (Kept into.old into.new) }
{
    let r = interned(into.types_mut(), Term::Array(element, Some(count)))?;
    Ok(r)
}

/// The type of the characters that fill an array of this type, if it has room for them: that of the array, with their
/// number where its size is unknown.
fn filled_type(into: &mut TypedUnit, t: TypeId, count: u64) -> Result<Option<TypeId>, NoMemory>
    requires known { AreKnown into.old }
    requires sized { AreSized into.old.known }
    requires array { t.0 < length into.old.known.terms }
    requires text { is_text (tree into.old.known t.0) ≡ true }
    ensures number { IfOk result (IsType into.new.known) }
    ensures tree { IfOk result (λ r. type_if into.new.known r ≡ filled_type (bare_type (tree into.old.known t.0)) count) }
    ensures kept { OnOk result (Kept into.old into.new) }
{
    let own = bare(into.types(), t);
    match into.types().view(own) {
        Term::Array(_, Some(elements)) => {
            if count <= elements || count - 1 == elements {
                Ok(Some(own))
            } else {
                Ok(None)
            }
        }
        Term::Array(element, None) => {
            if count > LARGEST {
                return Ok(None);
            }
            let whole = array_of(into, element, count)?;
            Ok(Some(whole))
        }
        Term::Void
        | Term::Int(_)
        | Term::Pointer(_)
        | Term::Struct(_)
        | Term::Union(_)
        | Term::Function { .. }
        | Term::Const(_) => Ok(None),
    }
}

/// String literals that fill an array of characters (C17 6.7.9p14).
fn fill(
    s: &Scopes,
    t: &Tokens,
    into: &mut TypedUnit,
    part: Subobject,
    line: u32,
    first: u32,
    more: u32,
    out: &mut Vec<Init>,
) -> Result<Option<u64>, NoMemory>
    requires opened { IsOpen into.old s.now }
    requires part { part.t.0 < length into.old.known.terms }
    requires text { is_text (tree into.old.known part.t.0) ≡ true }
    requires stores { AreStores into.old out.old.items }
    ensures typed { IfOk result (λ r. stores_if t.now.texts s.now into.new out.new.items r ≡ stores_by (λ z. filled_with (part_of into.old.known part) line (values.string line first more z)) t.now.texts s.now into.old out.old.items) }
    ensures fills { IfOk result (FillsIf into.old into.new s.now out.new.items) }
    ensures room { IfOk result (HasSpaceIf (env into.new.known) (tree into.old.known part.t.0)) }
{
    let text = filling(s, t, into, line, first, more)?;
    let Some(whole) = filled_type(into, part.t, text.length)? else {
        return Ok(None);
    };
    out.push(Init {
        offset: part.offset,
        t: whole,
        line,
        what: InitValue::Text(text.number),
    })?;
    Ok(Some(text.length))
}

/// The stores of an initializer for a part of an object, behind those that there are, and how many parts it is for.
#[cycle(initializing)]
pub(crate) fn initializer(
    s: &mut Scopes,
    u: &Unit,
    t: &Tokens,
    into: &mut TypedUnit,
    part: Subobject,
    i: NodeId,
    lasting: bool,
    out: &mut Vec<Init>,
) -> Result<Option<u64>, NoMemory>
    requires node { Is u.now is_initializer i }
    requires opened { IsOpen into.old s.old }
    requires part { IsPart into.old.known part }
    requires stores { AreStores into.old out.old.items }
    ensures typed { IfOk result (λ r. stores_if t.now.texts s.new into.new out.new.items r ≡ stores_by (part_stores lasting (part_of into.old.known part) (initializer_at u.now.forest i)) t.now.texts s.old into.old out.old.items) }
    ensures fills { IfOk result (FillsIf into.old into.new s.new out.new.items) }
    ensures room { IfOk result (HasSpaceIf (env into.new.known) (tree into.old.known part.t.0)) }
{
    match shape_of(into.types(), u, part, i) {
        Shape::Fill { line, first, more } => fill(s, t, into, part, line, first, more, out),
        Shape::Single(a) => single(s, u, t, into, part, a, lasting, out),
        Shape::Zero(a) => zero(s, u, t, into, part, a, lasting, out),
        Shape::Each => each(s, u, t, into, part, i, lasting, out),
        Shape::Wrong => Ok(None),
    }
}

/// The same of a list in braces, whose initializers are each for the next part.
#[cycle(initializing)]
fn each(
    s: &mut Scopes,
    u: &Unit,
    t: &Tokens,
    into: &mut TypedUnit,
    part: Subobject,
    i: NodeId,
    lasting: bool,
    out: &mut Vec<Init>,
) -> Result<Option<u64>, NoMemory>
    requires node { Is u.now is_initializer i }
    requires opened { IsOpen into.old s.old }
    requires part { IsPart into.old.known part }
    requires stores { AreStores into.old out.old.items }
    ensures typed { IfOk result (λ r. stores_if t.now.texts s.new into.new out.new.items r ≡ stores_by (list_stores lasting (part_of into.old.known part) (initializer_at u.now.forest i)) t.now.texts s.old into.old out.old.items) }
    ensures fills { IfOk result (FillsIf into.old into.new s.new out.new.items) }
    ensures room { IfOk result (HasSpaceIf (env into.new.known) (tree into.old.known part.t.0)) }
{
    let Initializer::Braces { inits, comma: _ } = u.init(i) else {
        return Ok(None);
    };
    let list = u.list(inits);
    let mut count: u64 = 0;
    for n in list {
        let Some(inner) = part_at(into.types(), part, count) else {
            return Ok(None);
        };
        let Some(_) = initializer(s, u, t, into, inner, *n, lasting, out)? else {
            return Ok(None);
        };
        count += 1;
    }
    Ok(Some(count))
}
