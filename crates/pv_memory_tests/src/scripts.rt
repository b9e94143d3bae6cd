// Scripts and names, which all tests of this crate begin with.
use pv_script::{Names, Place, Script, ScriptError, read};
use std::alloc::Global;
use std::process::Abort;

/// The names that instances have: 0 is that of literals, 1 that of allocations, and two objects are called `a` and `b`.
pub(crate) fn names(rt: &impl Abort, alloc: Global) -> Names {
    let mut names = Names::new(alloc);
    for text in "@lit @heap a b".split(' ') {
        let _ = names.add(text.as_bytes()).expect(rt, "no memory");
    }
    names
}

/// A script that puts `b` right behind the eight bytes of `a`.
pub(crate) fn neighbours(rt: &impl Abort, alloc: Global) -> Script {
    read(alloc, b"a 1 0x20000\nb 1 0x20008\n").expect(rt, "no script")
}

/// Where a script says that requests lie.
fn check_places(rt: &impl Abort, script: &Script) {
    assert!(rt; script.place(b"a", 1) == Some(Place::At(0x20000)));
    assert!(rt; script.place(b"b", 1) == Some(Place::At(0x20008)));
    assert!(rt; script.place(b"a", 2) == None);
}

#[test]
fn a_script_says_where_requests_lie(rt: HostRuntime) {
    check_places(&rt, &neighbours(&rt, rt.alloc()));
    assert!(&rt; Script::empty(rt.alloc()).place(b"a", 1) == None);
    let again = read(rt.alloc(), b"a 1 0x20000\na 1 0x30000\n").err();
    assert!(&rt; again == Some(ScriptError::Repeated { line: 2, first: 1 }));
}
