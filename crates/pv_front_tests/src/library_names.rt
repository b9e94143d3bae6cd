// The names of the library (C17 7.1.3).

use pv_library::{Library, library_named};

#[test]
fn a_name_is_that_of_a_function(rt: HostRuntime) {
    assert!(rt; matches!(library_named(b"memcpy"), Some(Library::Memcpy)));
    assert!(rt; library_named(b"memcpyx").is_none() && library_named(b"").is_none());
}
