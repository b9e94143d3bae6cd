//! Functions of the library by names of the source (C17 7.1.3p1).
ghost use Rattle.std.specs.Prelude.{◌≡◌, is_some};
ghost use Rattle.pv_typed.specs.Tables.{whole_unit};
ghost use Rattle.pv_typed.specs.TypedUnits.{name_at};
ghost use Rattle.pv_library.specs.LibraryNames.{library_named};
ghost use Rattle.pv_unit.specs.Redeclarations.{unit_name};

use pv_library::{Library, library_named};
use pv_typed::TypedUnit;

/// The function of the library that a name of the source names.
pub(crate) fn library_of(into: &TypedUnit, name: u32) -> Option<Library>
    ensures { result ≡ library_named (name_at (whole_unit into.now) (unit_name name)) }
{
    let n = name as u64 + 2;
    if n < into.names().len() as u64 {
        library_named(into.names().text(n as u32))
    } else {
        library_named(&[])
    }
}

/// Whether there is one.
pub(crate) fn is_of_library(into: &TypedUnit, name: u32) -> bool
    ensures { result ≡ is_some (library_named (name_at (whole_unit into.now) (unit_name name))) }
{
    library_of(into, name).is_some()
}
