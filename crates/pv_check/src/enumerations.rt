// Enumerations (C17 6.7.2.2): their tags and their enumerators.
ghost use Rattle.std.specs.Prelude.{◌≡◌, ◌<◌, ◌≤◌, ◌+ℤ◌, pos, ℤ, Bool, IfOk, OnOk, IsTrue, Some, None};
ghost use Rattle.pv_check.specs.declared.scopes.TagEntry.TheVariants as tag;
ghost use Rattle.pv_check.specs.Declarators.{after_value};
ghost use Rattle.pv_check.specs.Growing.{IsType};
ghost use Rattle.pv_check.specs.Open.{state_of, IsOpen, Goes, after_nothing, Texts, IfAnswered};
ghost use Rattle.pv_check.specs.Seeing.{seen_in};
ghost use Rattle.pv_check.specs.SeenAfter.{after_seen};
ghost use Rattle.pv_check.specs.Specifiers.{with_type};
ghost use Rattle.pv_check.specs.State.{give};
ghost use Rattle.pv_check.specs.WordRows.{total};
ghost use Rattle.pv_check.specs.Tags.{opened_enumeration, closed_enumeration, may_enumerate, enumerator_step};
ghost use Rattle.pv_num.specs.declared.kinds.IntKind.TheVariants as kind;
ghost use Rattle.pv_num.specs.Kinds.{fits_of};
ghost use Rattle.pv_types.specs.Ty.{IntTy};

use crate::scopes::{Entry, Scopes, TagEntry};
use crate::special_names::is_main;
use crate::specifiers::{Seen, with_type};
use crate::tags::interned_in;
use pv_num::{IntKind, fits};
use pv_typed::TypedUnit;
use pv_types::{NoMemory, Term};

/// Declares the tag of an enumeration before its list (C17 6.2.1p7, 6.7.2.3p2); false where the scope has it.
pub(crate) fn opened_enumeration(
    s: &mut Scopes,
    into: &TypedUnit,
    name: Option<u32>,
) -> Result<bool, NoMemory>
    requires opened { IsOpen into.now s.old }
    ensures opened { OnOk result (IsOpen into.now s.new) }
    ensures answer { IfOk result (λ r. (texts : Texts) (u : Bool) → after_nothing texts u s.new into.now r ≡ opened_enumeration name (state_of texts u s.old into.now)) }
{
    let Some(n) = name else {
        return Ok(true);
    };
    if s.inner_tag(n).is_some() {
        return Ok(false);
    }
    s.bind_tag(n, TagEntry::Unfinished)?;
    Ok(true)
}

/// Finishes an enumeration behind its list (C17 6.7.2.3p3).
pub(crate) fn closed_enumeration(
    s: &mut Scopes,
    into: &TypedUnit,
    name: Option<u32>,
) -> Result<(), NoMemory>
    requires opened { IsOpen into.now s.old }
    ensures opened { OnOk result (IsOpen into.now s.new) }
    ensures answer { OnOk result ((texts : Texts) (u : Bool) → state_of texts u s.new into.now ≡ closed_enumeration name (state_of texts u s.old into.now)) }
{
    if let Some(n) = name {
        s.bind_tag(n, TagEntry::Enumerated)?;
    }
    Ok(())
}

/// Whether an enumerator may have the value (C17 6.7.2.2p2), and the name: at file scope `main` is a function.
fn may_enumerate(s: &Scopes, into: &TypedUnit, n: u32, k: i128) -> bool
    ensures value { (texts : Texts) (u : Bool) → result ≡ may_enumerate n k (state_of texts u s.now into.now) }
    ensures small { IsTrue result → IsTrue (fits_of kind.Int k) }
{
    fits(IntKind::Int, k) && !(s.count() == 1 && is_main(into, n))
}

/// The value of an enumerator, as an `int` (C17 6.7.2.2p3).
fn int_of(k: i128) -> i32
    requires { IsTrue (fits_of kind.Int k) }
    ensures { result ≡ k }
{
    k as i32
}

/// The value that an enumerator has which stands behind one of the value and has none of its own (C17 6.7.2.2p3).
fn after_enumerator(k: i128) -> i128
    requires { IsTrue (fits_of kind.Int k) }
    ensures { result ≡ k +ℤ pos 1 }
{
    k + 1
}

/// An enumerator, and the value that the next one has without its own (C17 6.7.2.2p3); `None` where it may not have the
/// value, or the scope has the name.
pub(crate) fn enumerated(
    s: &mut Scopes,
    into: &TypedUnit,
    n: u32,
    k: i128,
) -> Result<Option<i128>, NoMemory>
    requires opened { IsOpen into.now s.old }
    ensures opened { OnOk result (IsOpen into.now s.new) }
    ensures answer { IfOk result (λ r. (texts : Texts) (u : Bool) → after_value texts u s.new into.now r ≡ enumerator_step n k (state_of texts u s.old into.now)) }
{
    if !may_enumerate(s, into, n, k) {
        return Ok(None);
    }
    if !s.declare(n, Entry::Constant(int_of(k)))? {
        return Ok(None);
    }
    Ok(Some(after_enumerator(k)))
}

/// An enumeration among specifiers, whose enumerators were read: its type is `int` (C17 6.7.2.2p4).
pub(crate) fn enumeration_seen(
    s: &mut Scopes,
    into: &mut TypedUnit,
    tag: Option<u32>,
    seen: Seen,
) -> Result<Option<Seen>, NoMemory>
    requires opened { IsOpen into.old s.old }
    requires named { IsType into.old.known seen.named }
    ensures opened { OnOk result (IsOpen into.new s.new) }
    ensures goes { OnOk result (Goes into.old into.new) }
    ensures known { IfAnswered result (λ x. IsType into.new.known x.named) }
    ensures bounded { IfAnswered result (λ x. total x.words ≤ total seen.words) }
    ensures answer { IfOk result (λ r. (texts : Texts) (u : Bool) → after_seen texts u s.new into.new r ≡ give (with_type (seen_in into.old.known seen) (IntTy kind.Int)) (closed_enumeration tag (state_of texts u s.old into.old))) }
{
    closed_enumeration(s, into, tag)?;
    let t = interned_in(into, Term::Int(IntKind::Int))?;
    Ok(with_type(seen, t))
}
