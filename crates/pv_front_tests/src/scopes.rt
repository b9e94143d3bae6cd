// What a name and a tag designate within scopes in one another.
use pv_check::{Entry, Named, Scopes, Tag, TagEntry};
use std::process::Abort;

/// Gives a name a first meaning in the innermost scope.
fn declares(s: &mut Scopes, name: u32, what: Entry) -> bool {
    s.count() > 0 && matches!(s.declare(name, what), Ok(true))
}

/// Gives a tag a first meaning in the innermost scope.
fn declares_tag(s: &mut Scopes, name: u32, what: Tag) -> bool {
    s.count() > 0 && matches!(s.declare_tag(name, what), Ok(true))
}

/// Closes the innermost scope.
fn leaves(s: &mut Scopes) -> bool {
    if s.count() == 0 {
        return false;
    }
    s.leave();
    true
}

/// Without declarations, nothing is found.
fn finds_nothing(s: &mut Scopes) -> bool {
    s.enter().is_ok() && s.count() == 1 && s.look(4).is_none() && s.look_tag(4).is_none()
}

/// `{ x is object 0; { x is the constant -7; enum x; .. }`
fn finds_the_inner(s: &mut Scopes) -> bool {
    declares(s, 4, Entry::Object(0))
        && s.enter().is_ok()
        && declares(s, 4, Entry::Constant(-7))
        && declares_tag(s, 4, Tag::Enumerated)
        && matches!(s.look(4), Some(Entry::Constant(-7)))
        && matches!(s.look_tag(4), Some(Tag::Enumerated))
}

/// `.. } .. }`
fn finds_the_outer(s: &mut Scopes) -> bool {
    s.count() == 2
        && leaves(s)
        && matches!(s.look(4), Some(Entry::Object(0)))
        && s.look_tag(4).is_none()
}

/// The innermost scope has one name, `x`.
fn has_one(s: &Scopes) -> bool {
    s.count() == 1
        && s.bound() == 1
        && matches!(s.inner(4), Some(Entry::Object(0)))
        && matches!(s.inner_at(0), Some(Entry::Object(0)))
        && s.inner_at(1).is_none()
}

/// Takes the scope, and opens it again.
fn is_opened_again(s: &mut Scopes) -> bool {
    let scope = s.take_innermost();
    let is_gone = s.count() == 0 && s.look(4).is_none();
    s.reenter(scope).is_ok() && is_gone && matches!(s.look(4), Some(Entry::Object(0)))
}

/// Gives a tag another meaning, and looks it up.
fn becomes_unfinished(s: &mut Scopes) -> bool {
    if s.count() == 0 {
        return false;
    }
    s.inner_tag(4).is_none()
        && s.bind_tag(4, TagEntry::Unfinished).is_ok()
        && matches!(s.tag_entry(4), Some(TagEntry::Unfinished))
}

/// The same, behind its list.
fn becomes_finished(s: &mut Scopes) -> bool {
    s.count() > 0
        && s.bind_tag(4, TagEntry::Enumerated).is_ok()
        && matches!(s.tag_entry(4), Some(TagEntry::Enumerated))
}

/// A list that takes its memory from where the scopes take theirs, and an object that an expression names.
fn notes_an_object(s: &mut Scopes) -> bool {
    let Ok(()) = s.note(Named::Object(7)) else {
        return false;
    };
    let mut named = Vec::new(s.allocator());
    named.extend_from_slice(s.used()).is_ok()
        && named.len() == 1
        && matches!(named[0], Named::Object(7))
}

/// An inner name hides an outer one; a scope of one name is handed out, as that of a function's parameters is, and opened
/// again for its body; an enumeration's tag within its own list, and behind it.
fn have_what_is_declared(rt: &impl Abort, s: &mut Scopes) {
    assert!(rt; finds_nothing(s) && finds_the_inner(s) && finds_the_outer(s));
    assert!(rt; has_one(s) && is_opened_again(s));
    assert!(rt; becomes_unfinished(s) && becomes_finished(s));
    assert!(rt; notes_an_object(s));
}

#[test]
fn scopes_have_what_is_declared(rt: HostRuntime) {
    let mut s = Scopes::new(rt.alloc());
    have_what_is_declared(&rt, &mut s);
}
