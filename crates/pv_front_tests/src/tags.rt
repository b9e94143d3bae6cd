// A structure's tag in a typed unit, from its first mention on.
ghost use Rattle.std.specs.Prelude.{◌<◌, ◌≡◌, [], IfSome, IsTrue, length};
ghost use Rattle.pv_types.specs.Formed.{members_in};
ghost use Rattle.pv_front_tests.specs.Ready.{IsReady};

use pv_typed::TypedUnit;
use pv_types::{Member, Term, TypeId};
use std::alloc::Global;
use std::process::Abort;

/// The number of a structure's tag, beside a type that is there.
fn new_tag(u: &mut TypedUnit, int: TypeId) -> Option<u32>
    requires { IsReady u.old int }
    ensures ready { IsReady u.new int }
    ensures tag { IfSome result (λ n. n < length u.new.known.tags) }
{
    let Ok(n) = u.tag(None, false) else {
        return None;
    };
    Some(n)
}

/// Whether the tag has no members yet.
fn is_open(u: &TypedUnit, tag: u32) -> bool
    requires { tag < length u.now.known.tags }
    ensures { IsTrue result → members_in u.now.known.done tag ≡ [] }
{
    u.types().members(tag).is_empty()
}

/// Gives a tag without members one of the type.
fn is_filled(alloc: Global, u: &mut TypedUnit, tag: u32, int: TypeId) -> bool
    requires ready { IsReady u.old int }
    requires tag { tag < length u.old.known.tags }
{
    if !u.types().is_complete(int) {
        return false;
    }
    if !is_open(u, tag) {
        return false;
    }
    let Ok(members) = vec![in alloc; Member { name: 0, t: int }] else {
        return false;
    };
    u.complete(tag, members);
    u.types().members(tag).len() == 1
}

/// `struct { int n; };`
fn is_completed(alloc: Global, u: &mut TypedUnit, int: TypeId) -> bool
    requires { IsReady u.old int }
{
    match new_tag(u, int) {
        Some(tag) => is_filled(alloc, u, tag, int),
        None => false,
    }
}

/// The type of a structure, the first with a tag.
fn is_listed(u: &mut TypedUnit, int: TypeId) -> bool
    requires { IsReady u.old int }
    ensures { IsReady u.new int }
{
    let Ok(tag) = u.tag(None, false) else {
        return false;
    };
    let Ok(s) = u.intern(Term::Struct(tag)) else {
        return false;
    };
    match u.add_tag(s) {
        Ok(()) => u.tags() == [s].as_slice(),
        Err(_) => false,
    }
}

/// Two tags.
pub(crate) fn has_tags(rt: &impl Abort, alloc: Global, u: &mut TypedUnit, int: TypeId)
    requires { IsReady u.old int }
{
    assert!(rt; is_listed(u, int));
    assert!(rt; is_completed(alloc, u, int));
}
