// What a text is cut into, and the words of a script's line.
use pv_script::{address_in, is_name, pieces, says_nothing};
use std::process::Abort;

#[test]
fn cuts_a_text_at_its_marks(rt: HostRuntime) {
    let Ok(lines) = pieces(rt.alloc(), b"a 1 0x10\n\n# b", b'\n') else {
        panic!(rt; "no memory");
    };
    assert_eq!(rt; lines.len(), 3);
    assert_eq!(rt; lines[0], b"a 1 0x10".as_slice());
    assert_eq!(rt; lines[1], b"".as_slice());
    assert_eq!(rt; lines[2], b"# b".as_slice());
}

#[test]
fn knows_the_words_of_a_line(rt: HostRuntime) {
    assert!(rt; says_nothing(b"# b") && says_nothing(b"") && !says_nothing(b" # b"));
    assert!(rt; is_name(b"_a1") && is_name(b"@heap") && !is_name(b"1a"));
    assert!(rt; address_in(b"0x1fF") == Some(511));
    assert!(rt; address_in(b"0X1") == None);
}
