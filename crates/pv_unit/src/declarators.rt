//! Specifiers and declarators of declarations (C17 6.7): the storage class and the type, the name and its type.
ghost use Rattle.std.specs.Prelude.{◌≡◌, ◌<◌, ◌||◌, nat_lt, Bool, IfOk, OnOk, Some, None, false, length};
ghost use Rattle.pv_tree.specs.Tables.{Is, tree_at, specifier_at, declarator_at, trees_at, is_declarator, is_specifier, IsListOf};
ghost use Rattle.pv_tree.specs.Syntax.{Then, NoTrees};
ghost use Rattle.pv_types.specs.Known.{Known, tree};
ghost use Rattle.pv_check.specs.Stepping.{step_in, steps_in};
ghost use Rattle.pv_check.specs.Open.{IsOpen, Goes, Texts, state_in, IfAnswered};
ghost use Rattle.pv_check.specs.Tags.{tag_alone};
ghost use Rattle.pv_check.specs.Scopes.{innermost_scope};
ghost use Rattle.pv_unit.specs.Declarations.{is_unsized, is_listed, has_list, only_tag, specified_by, type_declared, bound_in};
ghost use Rattle.pv_unit.specs.DeclarationParts.{has_unsized};
ghost use Rattle.pv_unit.specs.RuleParts.{composite_alone};
ghost use Rattle.pv_unit.specs.DeclaredIn.{after_specified, after_declared, state_on};

use pv_check::{
    Scopes, Specified, Step, composite_named, concluded, derived_in, read_specifiers, steps_of,
};
use pv_token::{Tokens, Word};
use pv_tree::{ListId, NodeId, Spec, Unit};
use pv_typed::TypedUnit;
use pv_types::{NoMemory, TypeId};

/// The type of a declarator.
#[derive(Clone, Copy)]
pub(crate) struct DeclaredType {
    pub(crate) t: TypeId,
    /// Whether an array of no size stands in it.
    pub(crate) without_size: bool,
}

/// Whether the step is an array of no size.
fn is_unsized(x: Step) -> bool
    ensures { (m : Known) → is_unsized (step_in m x) ≡ result }
{
    match x {
        Step::Array(None) => true,
        Step::Array(Some(_)) => false,
        Step::Pointer { .. } | Step::Function { .. } => false,
    }
}

/// Whether an array of no size is among the steps of a declarator.
fn has_unsized(steps: &[Step]) -> bool
    ensures { (m : Known) → has_unsized (steps_in m steps.now) ≡ result }
{
    for x in steps {
        if is_unsized(*x) {
            return true;
        }
    }
    false
}

/// What the specifiers of a declaration say.
pub(crate) fn specified(
    u: &Unit,
    t: &Tokens,
    s: &mut Scopes,
    into: &mut TypedUnit,
    list: ListId,
) -> Result<Option<Specified>, NoMemory>
    requires list { IsListOf u.now is_specifier list }
    requires opened { IsOpen into.old s.old }
    ensures opened { IfAnswered result (λ x. IsOpen into.new s.new) }
    ensures goes { IfAnswered result (λ x. Goes into.old into.new) }
    ensures known { IfAnswered result (λ x. x.t.0 < length into.new.known.terms) }
    ensures answer { IfOk result (λ r. after_specified t.now.texts s.new into.new r ≡ specified_by (trees_at u.now.forest list) (state_in t.now.texts s.old into.old)) }
{
    let Some(seen) = read_specifiers(u, t, s, into, list, false)? else {
        return Ok(None);
    };
    let r = concluded(into, seen)?;
    Ok(r)
}

/// What a declarator makes of the type before it.
pub(crate) fn type_declared(
    u: &Unit,
    t: &Tokens,
    s: &mut Scopes,
    into: &mut TypedUnit,
    unsized_may_be: bool,
    base: TypeId,
    d: NodeId,
) -> Result<Option<DeclaredType>, NoMemory>
    requires node { Is u.now is_declarator d }
    requires opened { IsOpen into.old s.old }
    requires base { base.0 < length into.old.known.terms }
    ensures opened { IfAnswered result (λ x. IsOpen into.new s.new) }
    ensures goes { IfAnswered result (λ x. Goes into.old into.new) }
    ensures known { IfAnswered result (λ x. x.t.0 < length into.new.known.terms) }
    ensures answer { IfOk result (λ r. after_declared t.now.texts s.new into.new r ≡ type_declared unsized_may_be (tree into.old.known base.0) (declarator_at u.now.forest d) (state_in t.now.texts s.old into.old)) }
{
    let Some(steps) = steps_of(s.allocator(), u, t, s, into, d, false)? else {
        return Ok(None);
    };
    let without_size = has_unsized(&steps.list);
    let Some(made) = derived_in(into, unsized_may_be, &steps.list, base)? else {
        return Ok(None);
    };
    Ok(Some(DeclaredType {
        t: made,
        without_size,
    }))
}

/// Whether a structure or a union with a tag is among the specifiers, with its members.
fn has_list(u: &Unit, list: ListId) -> bool
    requires { IsListOf u.now is_specifier list }
    ensures { result ≡ has_list (trees_at u.now.forest list) }
{
    let nodes = u.list(list);
    for n in nodes {
        if is_listed(u, *n) {
            return true;
        }
    }
    false
}

/// Whether the specifier is one.
fn is_listed(u: &Unit, n: NodeId) -> bool
    requires { Is u.now is_specifier n }
    ensures { result ≡ is_listed (specifier_at u.now.forest n) }
{
    match u.spec(n) {
        Spec::Struct { name, members: _ } => name.is_some(),
        Spec::Union { name, members: _ } => name.is_some(),
        Spec::Typedef
        | Spec::Extern
        | Spec::Static
        | Spec::Const
        | Spec::Void
        | Spec::Char
        | Spec::Short
        | Spec::Int
        | Spec::Long
        | Spec::Signed
        | Spec::Unsigned
        | Spec::Bool
        | Spec::StructTag(_)
        | Spec::UnionTag(_)
        | Spec::Enum { .. }
        | Spec::EnumTag(_)
        | Spec::TypedefName(_) => false,
    }
}

/// The one tag specifier, if there is no other specifier.
pub(crate) fn only_tag(u: &Unit, list: ListId) -> Option<(Word, u32)>
    requires { IsListOf u.now is_specifier list }
    ensures { result ≡ only_tag (trees_at u.now.forest list) }
{
    let nodes = u.list(list);
    if nodes.len() != 1 {
        return None;
    }
    tag_of(u, nodes[0])
}

/// The word and the tag of a tag specifier without a list.
fn tag_of(u: &Unit, n: NodeId) -> Option<(Word, u32)>
    requires { Is u.now is_specifier n }
    ensures { result ≡ only_tag (Then NoTrees (tree_at u.now.forest n)) }
{
    match u.spec(n) {
        Spec::StructTag(name) => Some((Word::Struct, name)),
        Spec::UnionTag(name) => Some((Word::Union, name)),
        Spec::EnumTag(name) => Some((Word::Enum, name)),
        Spec::Typedef
        | Spec::Extern
        | Spec::Static
        | Spec::Const
        | Spec::Void
        | Spec::Char
        | Spec::Short
        | Spec::Int
        | Spec::Long
        | Spec::Signed
        | Spec::Unsigned
        | Spec::Bool
        | Spec::Struct { .. }
        | Spec::Union { .. }
        | Spec::Enum { .. }
        | Spec::TypedefName(_) => None,
    }
}

/// `struct n ;` or `union n ;`, which is about the innermost scope (C17 6.7.2.3p7).
fn composite_alone(
    s: &mut Scopes,
    into: &mut TypedUnit,
    union: bool,
    name: u32,
) -> Result<bool, NoMemory>
    requires opened { IsOpen into.old s.old }
    ensures opened { OnOk result (IsOpen into.new s.new) }
    ensures goes { OnOk result (Goes into.old into.new) }
    ensures answer { IfOk result (λ b. (texts : Texts) → state_on texts s.new into.new b ≡ composite_alone union name (state_in texts s.old into.old)) }
{
    let found = s.inner_tag(name);
    let r = composite_named(s, into, union, name, found)?;
    Ok(r.is_some())
}

/// The same of a word and a tag.
pub(crate) fn tag_alone(
    s: &mut Scopes,
    into: &mut TypedUnit,
    word: Word,
    name: u32,
) -> Result<bool, NoMemory>
    requires opened { IsOpen into.old s.old }
    ensures opened { OnOk result (IsOpen into.new s.new) }
    ensures goes { OnOk result (Goes into.old into.new) }
    ensures answer { IfOk result (λ b. (texts : Texts) → state_on texts s.new into.new b ≡ tag_alone word name (state_in texts s.old into.old)) }
{
    match word {
        Word::Struct => composite_alone(s, into, false, name),
        Word::Union => composite_alone(s, into, true, name),
        _ => Ok(false),
    }
}

/// Whether specifiers without a declarator declare a tag or enumerators, or complete a tag (C17 6.7p2), where the
/// innermost scope had so many names and tags before them.
pub(crate) fn tags_alone(u: &Unit, s: &Scopes, into: &TypedUnit, list: ListId, before: u64) -> bool
    requires list { IsListOf u.now is_specifier list }
    requires opened { IsOpen into.now s.now }
    ensures { (texts : Texts) → result ≡ (nat_lt before (bound_in (innermost_scope (state_in texts s.now into.now).scopes)) || has_list (trees_at u.now.forest list)) }
{
    before < s.bound() || has_list(u, list)
}

/// How many names and tags the innermost scope has.
pub(crate) fn bound(s: &Scopes, into: &TypedUnit) -> u64
    requires { IsOpen into.now s.now }
    ensures { (texts : Texts) → result ≡ bound_in (innermost_scope (state_in texts s.now into.now).scopes) }
{
    s.bound()
}
