// Types, their layouts, and through which types they are accessed. Tables of many types stand in `layer-tests`.
//
// Many short tests: what a test costs to prove grows faster than the number of its calls.
ghost use Rattle.std.specs.Prelude.{◌<◌, ◌≤◌, ◌^◌, length, IsTrue};
ghost use Rattle.pv_types.specs.Known.{tree, env};
ghost use Rattle.pv_types.specs.Layouts.{is_complete_in, layout_in};

use crate::structures::pair;
use pv_effect::{permits_declared, permits_marks};
use pv_layout::{align, bare, leaf_at, measure, member, part_at, size, struct_number};
use pv_num::IntKind;
use pv_types::{Term, TypeId, Types};
use std::process::Abort;

/// `int f(int, ...)`
#[test]
fn a_function_type_is_made(rt: HostRuntime) {
    let alloc = rt.alloc();
    let mut types = Types::new(alloc).expect(&rt, "no memory");
    let int = types
        .intern(Term::Int(IntKind::Int))
        .expect(&rt, "no memory");
    assert!(rt; types.is_adjusted(int));
    let list = vec![in alloc; int].expect(&rt, "no memory");
    let params = types.params(list).expect(&rt, "no memory");
    assert!(rt; types.param_list(params) == [int].as_slice());
    let term = Term::Function {
        result: int,
        params,
        variadic: true,
    };
    let function = types.intern(term).expect(&rt, "no memory");
    assert!(rt; types.has(function) && types.view(function) == term);
}

/// A qualified type is another one, which the qualifier can be taken from.
#[test]
fn qualifiers_make_other_types(rt: HostRuntime) {
    let mut types = Types::new(rt.alloc()).expect(&rt, "no memory");
    let int = types
        .intern(Term::Int(IntKind::Int))
        .expect(&rt, "no memory");
    let constant = types.intern(Term::Const(int)).expect(&rt, "no memory");
    assert!(rt; types.compatible(int, int) && !types.compatible(int, constant));
    assert!(rt; types.has_const(constant) && bare(&types, constant) == int);
}

/// An `int` takes four bytes at addresses that four divides.
#[test]
fn an_integer_is_laid_out(rt: HostRuntime) {
    let mut types = Types::new(rt.alloc()).expect(&rt, "no memory");
    let int = types
        .intern(Term::Int(IntKind::Int))
        .expect(&rt, "no memory");
    assert!(rt; types.is_complete(int));
    assert!(rt; types.extent(int).align == 4 && measure(&types, int) == Some(4));
    assert!(rt; size(&types, int) == 4 && align(&types, int) == 4);
}

/// The complete type of this number.
fn object(rt: &impl Abort, types: &Types, t: TypeId) -> TypeId
    ensures known { result.0 < length types.now.terms }
    ensures complete { IsTrue (is_complete_in (env types.now) (tree types.now result.0)) }
    ensures small { (layout_in (env types.now) (tree types.now result.0)).size ≤ 2 ^ 32 }
{
    assert!(rt; types.has(t));
    assert!(rt; types.is_complete(t) && measure(types, t).is_some());
    t
}

/// Whether the first bytes, as many as the type has, may be read through it.
fn is_read(types: &Types, want: TypeId, marks: &[Option<(u32, u8)>]) -> bool
    requires known { want.0 < length types.now.terms }
    requires complete { IsTrue (is_complete_in (env types.now) (tree types.now want.0)) }
    requires small { (layout_in (env types.now) (tree types.now want.0)).size ≤ 2 ^ 32 }
{
    let bytes = size(types, want) as usize;
    bytes <= marks.len() && permits_marks(types, &marks[..bytes], want)
}

/// The byte of a `char` that was stored may be read as a `char`.
#[test]
fn stored_bytes_are_read_by_their_type(rt: HostRuntime) {
    let mut types = Types::new(rt.alloc()).expect(&rt, "no memory");
    let char = types
        .intern(Term::Int(IntKind::Char))
        .expect(&rt, "no memory");
    let want = object(&rt, &types, char);
    assert!(rt; is_read(&types, want, &[Some((char.0, 0))]));
}

/// The member of this number.
fn numbered(types: &Types, whole: TypeId, number: u32) -> Option<(u64, TypeId)>
    requires known { whole.0 < length types.now.terms }
    requires complete { IsTrue (is_complete_in (env types.now) (tree types.now whole.0)) }
    requires small { (layout_in (env types.now) (tree types.now whole.0)).size ≤ 2 ^ 32 }
{
    match types.view(whole) {
        Term::Struct(tag) => struct_number(types, tag, u64::from(number)),
        _ => None,
    }
}

/// The second member, by its name and by its number, where gcc for x86-64 lays it.
#[test]
fn members_are_found(rt: HostRuntime) {
    let mut types = Types::new(rt.alloc()).expect(&rt, "no memory");
    let (pair, int) = pair(&rt, rt.alloc(), &mut types);
    let whole = object(&rt, &types, pair);
    assert!(rt; member(&types, whole, 1) == Some((4, int)));
    assert!(rt; numbered(&types, whole, 1) == Some((4, int)));
}

/// An `int` stands at the fourth byte of the structure, and may be accessed there.
#[test]
fn parts_are_found(rt: HostRuntime) {
    let mut types = Types::new(rt.alloc()).expect(&rt, "no memory");
    let (pair, int) = pair(&rt, rt.alloc(), &mut types);
    let whole = object(&rt, &types, pair);
    let part = object(&rt, &types, int);
    assert!(rt; leaf_at(&types, whole, 4, part) && part_at(&types, whole, 4, part));
    assert!(rt; permits_declared(&types, whole, 4, part));
}

/// The member that holds the byte at an offset: where it begins, and its type.
fn held(types: &Types, whole: TypeId, offset: u64) -> Option<(u64, TypeId)>
    requires known { whole.0 < length types.now.terms }
    requires complete { IsTrue (is_complete_in (env types.now) (tree types.now whole.0)) }
    requires small { (layout_in (env types.now) (tree types.now whole.0)).size ≤ 2 ^ 32 }
{
    match types.view(whole) {
        Term::Struct(tag) => types.member_over(tag, offset),
        _ => None,
    }
}

/// Its second member holds the sixth byte, and none the second one, which is padding.
#[test]
fn members_hold_bytes(rt: HostRuntime) {
    let mut types = Types::new(rt.alloc()).expect(&rt, "no memory");
    let (pair, int) = pair(&rt, rt.alloc(), &mut types);
    let whole = object(&rt, &types, pair);
    assert!(rt; held(&types, whole, 5) == Some((4, int)) && held(&types, whole, 1).is_none());
}

/// The number of the member of this name, and where it begins, if that is kept.
fn looked_up(types: &Types, whole: TypeId, name: u32) -> Option<(u64, Option<u64>)>
    requires known { whole.0 < length types.now.terms }
{
    let Term::Struct(tag) = types.view(whole) else {
        return None;
    };
    let number = types.member_named(tag, name)?;
    Some((number, types.member_start(tag, number)))
}

/// Where the members begin is kept from the next type on that is made.
#[test]
fn members_are_looked_up(rt: HostRuntime) {
    let mut types = Types::new(rt.alloc()).expect(&rt, "no memory");
    let (pair, _) = pair(&rt, rt.alloc(), &mut types);
    assert!(rt; types.has(pair));
    assert!(rt; looked_up(&types, pair, 1) == Some((1, None)));
    let whole = object(&rt, &types, pair);
    let _ = types.intern(Term::Pointer(whole)).expect(&rt, "no memory");
    assert!(rt; types.has(pair));
    assert!(rt; looked_up(&types, pair, 1) == Some((1, Some(4))));
}
