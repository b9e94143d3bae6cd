// A journal, and the same without one of its lines.
use pv_journal::{JournalError, Said, check};
use pv_script::Names;
use std::process::Abort;

/// What another implementation tells of a run that compares a pointer to an object that has ended.
pub(crate) static WHOLE: &str = "create p#1 turn=1 base=0x10000 size=8
create a#1 turn=2 base=0x20000 size=4
end a#1 turn=9
create b#1 turn=10 base=0x20000 size=4
end b#1 turn=12
fault turn=15
events 6
";

/// The object never ends, and another one is made at its bytes.
static WITHOUT_AN_END: &str = "create p#1 turn=1 base=0x10000 size=8
create a#1 turn=2 base=0x20000 size=4
create b#1 turn=10 base=0x20000 size=4
end b#1 turn=12
fault turn=15
events 5
";

#[test]
fn finds_the_line_that_cannot_be(rt: HostRuntime) {
    let mut names = Names::new(rt.alloc());
    let Ok(lines) = check(rt.alloc(), WHOLE.as_bytes(), &mut names) else {
        panic!(rt; "no journal");
    };
    assert_eq!(rt; lines.len(), 6);
    assert!(rt; lines[5].what == Said::Fault && lines[5].turn == 15);
    let Err(error) = check(rt.alloc(), WITHOUT_AN_END.as_bytes(), &mut names) else {
        panic!(rt; "a journal");
    };
    assert!(rt; error == JournalError::Bad { line: 3 });
}
