//! Whether a declaration gives a function of the library a type that is compatible with its own (C17 7.1.4p2).
ghost use Rattle.std.specs.Prelude.{◌≡◌, ◌<◌, length, IfOk, OnOk};
ghost use Rattle.pv_types.specs.Known.{tree};
ghost use Rattle.pv_types.specs.Compatible.{are_compatible};
ghost use Rattle.pv_typed.specs.Known.{AreKnown};
ghost use Rattle.pv_typed.specs.Tables.{whole_unit};
ghost use Rattle.pv_typed.specs.TypedUnits.{name_at};
ghost use Rattle.pv_library.specs.LibraryNames.{library_named};
ghost use Rattle.pv_check.specs.Open.{IsOpen, Goes};
ghost use Rattle.pv_library.specs.LibraryTypes.{prototype};
ghost use Rattle.pv_unit.specs.EntityParts.{agrees};
ghost use Rattle.pv_unit.specs.Redeclarations.{unit_name};

use crate::library_names::library_of;
use crate::library_types::prototype;
use pv_check::Scopes;
use pv_library::Library;
use pv_typed::TypedUnit;
use pv_types::{NoMemory, TypeId};
use std::alloc::Global;

/// The type of a function of the library, in the tables of a unit.
fn prototype_in(alloc: Global, into: &mut TypedUnit, f: Library) -> Result<TypeId, NoMemory>
    requires known { AreKnown into.old }
    ensures known { IfOk result (λ r. r.0 < length into.new.known.terms) }
    ensures tree { IfOk result (λ r. tree into.new.known r.0 ≡ prototype f) }
    ensures whole { OnOk result (whole_unit into.new ≡ whole_unit into.old) }
    ensures goes { OnOk result (Goes into.old into.new) }
{
    let r = prototype(alloc, into.types_mut(), f)?;
    Ok(r)
}

/// Whether the type is compatible with that of a function of the library.
fn has_prototype(s: &Scopes, into: &mut TypedUnit, f: Library, t: TypeId) -> Result<bool, NoMemory>
    requires opened { IsOpen into.old s.now }
    requires known { t.0 < length into.old.known.terms }
    ensures opened { OnOk result (IsOpen into.new s.now) }
    ensures goes { OnOk result (Goes into.old into.new) }
    ensures whole { OnOk result (whole_unit into.new ≡ whole_unit into.old) }
    ensures answer { IfOk result (λ b. b ≡ are_compatible (tree into.old.known t.0) (prototype f)) }
{
    let p = prototype_in(s.allocator(), into, f)?;
    Ok(into.types().compatible(t, p))
}

/// Whether the type is compatible with that of the library's function of this name, if there is one.
pub(crate) fn agrees(
    s: &Scopes,
    into: &mut TypedUnit,
    name: u32,
    t: TypeId,
) -> Result<bool, NoMemory>
    requires opened { IsOpen into.old s.now }
    requires known { t.0 < length into.old.known.terms }
    ensures opened { OnOk result (IsOpen into.new s.now) }
    ensures goes { OnOk result (Goes into.old into.new) }
    ensures whole { OnOk result (whole_unit into.new ≡ whole_unit into.old) }
    ensures answer { IfOk result (λ b. b ≡ agrees (library_named (name_at (whole_unit into.old) (unit_name name))) (tree into.old.known t.0)) }
{
    match library_of(into, name) {
        Some(f) => has_prototype(s, into, f, t),
        None => Ok(true),
    }
}
