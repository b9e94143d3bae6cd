//! The functions of the library by their names (C17 7.1.3p1).
ghost use Rattle.std.specs.Prelude.{◌≡◌, ◌==◌, ◌∷◌, List, Option, Some};
ghost use Rattle.pv_library.specs.LibraryNames.{NamedFunction, named_function, function_among, library_named};

use crate::library::Library;

/// The function where the name is this one, and else what the other names give.
fn named(name: &[u8], text: &[u8], f: Library, others: Option<Library>) -> Option<Library>
    ensures { (rest : List NamedFunction) → others ≡ function_among rest name.now → result ≡ function_among (named_function text.now f ∷ rest) name.now }
{
    if text == name { Some(f) } else { others }
}

/// The function of the library that has this name (C17 7.1.3p1).
pub fn library_named(name: &[u8]) -> Option<Library>
    ensures { result ≡ library_named name.now }
{
    let r = named(name, b"printf", Library::Printf, None);
    let r = named(name, b"abort", Library::Abort, r);
    let r = named(name, b"exit", Library::Exit, r);
    let r = named(name, b"strcpy", Library::Strcpy, r);
    let r = named(name, b"strcmp", Library::Strcmp, r);
    let r = named(name, b"strlen", Library::Strlen, r);
    let r = named(name, b"memcmp", Library::Memcmp, r);
    let r = named(name, b"memset", Library::Memset, r);
    let r = named(name, b"memmove", Library::Memmove, r);
    let r = named(name, b"memcpy", Library::Memcpy, r);
    let r = named(name, b"realloc", Library::Realloc, r);
    let r = named(name, b"free", Library::Free, r);
    let r = named(name, b"calloc", Library::Calloc, r);
    named(name, b"malloc", Library::Malloc, r)
}
