//! What breaks a constraint of a unit's last external declaration (C17 6.7.6.2p1, 6.9.2p3).
ghost use Rattle.std.specs.Prelude.{◌≡◌, ◌<◌, ◌&&◌, ◌||◌, not, false, length};
ghost use Rattle.pv_types.specs.Known.{tree, env};
ghost use Rattle.pv_types.specs.Layouts.{is_complete_in};
ghost use Rattle.pv_typed.specs.Known.{AreKnown};
ghost use Rattle.pv_check.specs.Open.{Texts, state_in};
ghost use Rattle.pv_check.specs.Raw.{Raw};
ghost use Rattle.pv_unit.specs.Definitions.{is_sized, entity_type, is_finished, may_end};
ghost use Rattle.pv_unit.specs.HeadParts.{are_finished};
ghost use Rattle.pv_unit.specs.Entering.{entity_of};
ghost use Rattle.pv_unit.specs.Outside.{unit_state};
ghost use Rattle.pv_unit.specs.There.{IsThere, AreThere};

use crate::entities::{Entities, Entity, Outer};
use pv_typed::TypedUnit;
use pv_types::{Term, TypeId, Types};

/// Whether no array of no size stands in the type, parameters aside.
fn is_sized(types: &Types, t: TypeId) -> bool
    requires { t.0 < length types.now.terms }
    ensures { result ≡ is_sized (tree types.now t.0) }
{
    let mut at = t;
    loop {
        match types.view(at) {
            Term::Array(element, Some(_)) => at = element,
            Term::Pointer(to) => at = to,
            Term::Const(inner) => at = inner,
            Term::Function {
                result: result_type,
                params: _,
                variadic: _,
            } => at = result_type,
            Term::Array(_, None) => return false,
            Term::Void | Term::Int(_) | Term::Struct(_) | Term::Union(_) => return true,
        }
    }
}

/// The type of an object or a function.
fn entity_type(into: &TypedUnit, e: Entity) -> TypeId
    requires known { AreKnown into.now }
    requires there { IsThere into.now (entity_of e) }
    ensures known { result.0 < length into.now.known.terms }
    ensures tree { (texts : Texts) (s : Raw) → tree into.now.known result.0 ≡ entity_type (state_in texts s into.now) (entity_of e) }
{
    if e.function {
        into.function(e.number).t
    } else {
        into.object(e.number).t
    }
}

fn both(a: bool, b: bool) -> bool
    ensures { result ≡ (a && b) }
{
    a && b
}

/// Whether its type has its sizes, where they were left out.
fn is_sized_there(types: &Types, e: Entity, t: TypeId) -> bool
    requires { t.0 < length types.now.terms }
    ensures { result ≡ (not e.without_size || is_sized (tree types.now t.0)) }
{
    !e.without_size || is_sized(types, t)
}

/// Whether its type is complete, if it is an object that is defined.
fn is_complete_there(types: &Types, e: Entity, t: TypeId) -> bool
    requires { t.0 < length types.now.terms }
    ensures { result ≡ (e.function || not e.defined || is_complete_in (env types.now) (tree types.now t.0)) }
{
    e.function || !e.defined || types.is_complete(t)
}

/// Whether its type is what it has to be at the end.
fn is_finished(into: &TypedUnit, e: Entity) -> bool
    requires known { AreKnown into.now }
    requires there { IsThere into.now (entity_of e) }
    ensures { (texts : Texts) (s : Raw) → result ≡ is_finished (state_in texts s into.now) (entity_of e) }
{
    let t = entity_type(into, e);
    let sized = is_sized_there(into.types(), e, t);
    let complete = is_complete_there(into.types(), e, t);
    both(sized, complete)
}

/// Whether that is so of all.
fn are_finished(into: &TypedUnit, entities: &Entities) -> bool
    requires known { AreKnown into.now }
    requires there { AreThere into.now entities.now }
    ensures { (texts : Texts) (s : Raw) → result ≡ are_finished (state_in texts s into.now) entities.now }
{
    for i in 0..entities.len() {
        if !is_finished(into, entities.at(i)) {
            return false;
        }
    }
    true
}

/// Whether nothing breaks a constraint there.
pub(crate) fn may_end(into: &TypedUnit, outer: &Outer) -> bool
    requires known { AreKnown into.now }
    requires there { AreThere into.now outer.now.entities }
    ensures { (texts : Texts) (s : Raw) → result ≡ may_end (unit_state texts s into.now outer.now) }
{
    let finished = are_finished(into, &outer.entities);
    both(!outer.unsized_typedef, finished)
}
