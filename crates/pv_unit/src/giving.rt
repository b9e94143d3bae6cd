//! What an initializer gives its object (C17 6.7.9p3, p22): the type, and the stores.
ghost use Rattle.std.specs.Prelude.{◌≡◌, ◌<◌, [], length, IfOk, OnOk, Some, false, true};
ghost use Rattle.pv_types.specs.Known.{env, tree};
ghost use Rattle.pv_types.specs.Formed.{completions};
ghost use Rattle.pv_tree.specs.Tables.{Forest, Is, initializer_at, is_initializer};
ghost use Rattle.pv_typed.specs.Formed.{Grown};
ghost use Rattle.pv_typed.specs.Known.{AreKnown};
ghost use Rattle.pv_typed.specs.Tables.{whole_unit};
ghost use Rattle.pv_check.specs.Growing.{AreSized};
ghost use Rattle.pv_check.specs.Kept.{Kept};
ghost use Rattle.pv_check.specs.Open.{IsOpen, Goes, Texts, state_in};
ghost use Rattle.pv_unit.specs.DeclaredIn.{OpenOn, GoesOn, state_on};
ghost use Rattle.pv_unit.specs.Giving.{IsGivenIf, given_if, given_in, with_stores};
ghost use Rattle.pv_unit.specs.Initializers.{is_braces, is_filling};
ghost use Rattle.pv_unit.specs.InitializerParts.{is_braced};
ghost use Rattle.pv_unit.specs.Parts.{can_be_initialized, with_size};
ghost use Rattle.pv_unit.specs.Shapes.{shape_in};
ghost use Rattle.pv_unit.specs.Stores.{AreStores, FillsIf, stores_in};
ghost use Rattle.pv_unit.specs.Subobjects.{part_of, HasSpace, IsPart};
ghost use Rattle.pv_unit.specs.ValueRules.{with_given};
ghost use Rattle.pv_unit.specs.ValueParts.{object_stores};
ghost use Rattle.pv_unit.specs.RuleParts.{object_given};

use crate::initializers::{array_of, initializer};
use crate::parts::Subobject;
use crate::shapes::{Shape, shape_of};
use pv_check::Scopes;
use pv_token::Tokens;
use pv_tree::{Init as Initializer, NodeId, Unit};
use pv_typed::{Init, Object, TypedUnit};
use pv_types::{NoMemory, Term, TypeId, Types};

/// What an object gets, beside its stores.
#[derive(Clone, Copy)]
pub(crate) struct Completion {
    /// Its type, which is complete.
    t: TypeId,
    /// Whether all its bytes are zero before the stores.
    braced: bool,
}

/// Whether an object of the type may have an initializer (C17 6.7.9p3).
fn can_be_initialized(types: &Types, t: TypeId) -> bool
    requires { t.0 < length types.now.terms }
    ensures { result ≡ can_be_initialized (env types.now) (tree types.now t.0) }
{
    match types.view(t) {
        Term::Array(element, None) => types.is_complete(element),
        Term::Array(_, Some(_))
        | Term::Void
        | Term::Int(_)
        | Term::Pointer(_)
        | Term::Struct(_)
        | Term::Union(_)
        | Term::Function { .. }
        | Term::Const(_) => types.is_complete(t),
    }
}

/// Whether it is a list in braces.
fn is_braces(u: &Unit, i: NodeId) -> bool
    requires { Is u.now is_initializer i }
    ensures { result ≡ is_braces (initializer_at u.now.forest i) }
{
    match u.init(i) {
        Initializer::Expr(_) => false,
        Initializer::Braces { .. } => true,
    }
}

/// Whether string literals fill an array.
fn is_filling(x: Shape) -> bool
    ensures { (f : Forest) → result ≡ is_filling (shape_in f x) }
{
    match x {
        Shape::Fill { .. } => true,
        Shape::Single(_) | Shape::Zero(_) | Shape::Each | Shape::Wrong => false,
    }
}

/// Whether all bytes of the part are zero before the stores.
fn is_braced(types: &Types, u: &Unit, part: Subobject, i: NodeId) -> bool
    requires sized { AreSized types.now }
    requires part { IsPart types.now part }
    requires node { Is u.now is_initializer i }
    ensures { result ≡ is_braced (completions types.now) (part_of types.now part) (initializer_at u.now.forest i) }
{
    is_braces(u, i) || is_filling(shape_of(types, u, part, i))
}

/// The type, with so many elements where it is an array of unknown size (C17 6.7.9p22).
fn sized(into: &mut TypedUnit, t: TypeId, count: u64) -> Result<TypeId, NoMemory>
    requires known { AreKnown into.old }
    requires sized { AreSized into.old.known }
    requires there { t.0 < length into.old.known.terms }
    requires can { can_be_initialized (env into.old.known) (tree into.old.known t.0) ≡ true }
    requires room { HasSpace (env into.old.known) (tree into.old.known t.0) count }
    ensures number { IfOk result (λ r. r.0 < length into.new.known.terms) }
    ensures tree { IfOk result (λ r. tree into.new.known r.0 ≡ with_size (tree into.old.known t.0) count) }
    ensures kept { OnOk result (Kept into.old into.new) }
{
    match into.types().view(t) {
        Term::Array(element, None) => {
            let whole = array_of(into, element, count)?;
            Ok(whole)
        }
        Term::Array(_, Some(_))
        | Term::Void
        | Term::Int(_)
        | Term::Pointer(_)
        | Term::Struct(_)
        | Term::Union(_)
        | Term::Function { .. }
        | Term::Const(_) => Ok(t),
    }
}

/// What the initializer of an object of the type gives it; the stores stand in `out`, which has none before.
fn initialized_object(
    s: &mut Scopes,
    u: &Unit,
    t: &Tokens,
    into: &mut TypedUnit,
    whole: TypeId,
    i: NodeId,
    lasting: bool,
    out: &mut Vec<Init>,
) -> Result<Option<Completion>, NoMemory>
    requires node { Is u.now is_initializer i }
    requires opened { IsOpen into.old s.old }
    requires known { whole.0 < length into.old.known.terms }
    requires none { out.old.items ≡ [] }
    ensures typed { IfOk result (λ r. given_if t.now.texts s.new into.new out.new.items r ≡ object_stores lasting (tree into.old.known whole.0) (initializer_at u.now.forest i) (state_in t.now.texts s.old into.old)) }
    ensures fills { IfOk result (FillsIf into.old into.new s.new out.new.items) }
    ensures known { IfOk result (IsGivenIf into.new) }
{
    if !can_be_initialized(into.types(), whole) {
        return Ok(None);
    }
    let part = Subobject {
        offset: 0,
        t: whole,
    };
    let braced = is_braced(into.types(), u, part, i);
    let Some(count) = initializer(s, u, t, into, part, i, lasting, out)? else {
        return Ok(None);
    };
    let complete = sized(into, whole, count)?;
    Ok(Some(Completion {
        t: complete,
        braced,
    }))
}

/// The stores stand behind those of the object.
fn stored(into: &mut TypedUnit, o: u32, stores: &[Init]) -> Result<(), NoMemory>
    requires object { o < length into.old.objects }
    requires stores { AreStores into.old stores.now }
    ensures types { OnOk result (into.new.known ≡ into.old.known) }
    ensures whole { OnOk result (whole_unit into.new ≡ with_stores (whole_unit into.old) o (stores_in into.old stores.now)) }
    ensures grown { OnOk result (Grown into.old into.new) }
{
    for x in stores {
        into.add_init(o, *x)?;
    }
    Ok(())
}

/// The object has the type, and the stores behind its own.
fn filled(
    s: &Scopes,
    into: &mut TypedUnit,
    o: u32,
    x: Completion,
    stores: &[Init],
) -> Result<(), NoMemory>
    requires opened { IsOpen into.old s.now }
    requires object { o < length into.old.objects }
    requires known { x.t.0 < length into.old.known.terms }
    requires stores { AreStores into.old stores.now }
    ensures opened { OnOk result (IsOpen into.new s.now) }
    ensures goes { OnOk result (Goes into.old into.new) }
    ensures answer { OnOk result ((texts : Texts) → state_in texts s.now into.new ≡ with_given o (given_in into.old stores.now x) (state_in texts s.now into.old)) }
{
    let old = into.object(o);
    stored(into, o, stores)?;
    into.set_object(
        o,
        Object {
            name: old.name,
            t: x.t,
            line: old.line,
            lasting: old.lasting,
            braced: x.braced,
        },
    );
    Ok(())
}

/// The object gets what its initializer gives; false where the initializer has no typing.
pub(crate) fn given(
    u: &Unit,
    t: &Tokens,
    s: &mut Scopes,
    into: &mut TypedUnit,
    lasting: bool,
    o: u32,
    i: NodeId,
) -> Result<bool, NoMemory>
    requires node { Is u.now is_initializer i }
    requires opened { IsOpen into.old s.old }
    requires object { o < length into.old.objects }
    ensures opened { IfOk result (OpenOn into.new s.new) }
    ensures goes { IfOk result (GoesOn into.old into.new) }
    ensures answer { IfOk result (λ b. state_on t.now.texts s.new into.new b ≡ object_given lasting o (initializer_at u.now.forest i) (state_in t.now.texts s.old into.old)) }
{
    let whole = into.object(o).t;
    let mut stores = Vec::new(s.allocator());
    let Some(x) = initialized_object(s, u, t, into, whole, i, lasting, &mut stores)? else {
        return Ok(false);
    };
    filled(s, into, o, x, &stores)?;
    Ok(true)
}
