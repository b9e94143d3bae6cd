// The structure of two members that tests of types look at.
ghost use Rattle.std.specs.Prelude.{◌<◌, ◌≡◌, [], length, IsTrue};
ghost use Rattle.pv_types.specs.Formed.{members_in};

use pv_num::IntKind;
use pv_types::{Member, Term, TypeId, Types};
use std::alloc::Global;
use std::process::Abort;

/// Whether the tag has no members yet.
fn is_open(types: &Types, tag: u32) -> bool
    requires { tag < length types.now.tags }
    ensures { IsTrue result → members_in types.now.done tag ≡ [] }
{
    types.members(tag).is_empty()
}

/// The type `struct { char first; int second; }`, and that of its second member.
pub(crate) fn pair(rt: &impl Abort, alloc: Global, types: &mut Types) -> (TypeId, TypeId) {
    let char = types
        .intern(Term::Int(IntKind::Char))
        .expect(rt, "no memory");
    let int = types
        .intern(Term::Int(IntKind::Int))
        .expect(rt, "no memory");
    let tag = types.tag(Some(7), false).expect(rt, "no memory");
    let pair = types.intern(Term::Struct(tag)).expect(rt, "no memory");
    assert!(rt; types.tag_name(tag) == Some(7) && !types.is_union(tag));
    assert!(rt; is_open(types, tag));
    assert!(rt; types.is_complete(char) && types.is_complete(int));
    let members = vec![in alloc; Member { name: 0, t: char }, Member { name: 1, t: int }].expect(
        rt,
        "no memory",
    );
    types.complete(tag, members);
    (pair, int)
}
