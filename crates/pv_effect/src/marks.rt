// Reads of objects that have no declared type.
ghost use Rattle.std.specs.Prelude.{◌≡◌, ◌<◌, ◌≤◌, ◌^◌, length, IsTrue};
ghost use Rattle.pv_types.specs.Known.{tree, env};
ghost use Rattle.pv_types.specs.Layouts.{layout_in, is_complete_in};
ghost use Rattle.pv_layout.specs.Parts.{leaves};
ghost use Rattle.pv_effect.specs.EffectiveType.{permits_byte, permits_marks};

use crate::bytes::{Sought, lies_in};
use pv_types::{TypeId, Types};

/// Whether bytes of an object without a declared type may be read through an lvalue of the type (C17 6.5p6, 6.5p7).
///
/// The marks say of each byte what was stored there last: the number of a type, and which of its bytes it is. A byte
/// may be read where it has no mark, where it is padding of the type, or where a scalar that it lies in, in whatever
/// members of unions, is of character type, or is, qualifiers aside, of the type of the mark or of its signed or
/// unsigned counterpart, with the byte at the same place in it. A mark whose number is that of no type is as one of a
/// type that differs from all others.
pub fn permits_marks(types: &Types, marks: &[Option<(u32, u8)>], want: TypeId) -> bool
    requires want { want.0 < length types.now.terms }
    requires complete { IsTrue (is_complete_in (env types.now) (tree types.now want.0)) }
    requires small { (layout_in (env types.now) (tree types.now want.0)).size ≤ 2 ^ 32 }
    requires each { length marks.now ≡ (layout_in (env types.now) (tree types.now want.0)).size }
    ensures { result ≡ permits_marks types.now (layout_in (env types.now) (tree types.now want.0)).parts marks.now }
{
    for i in 0..marks.len() {
        if !permits_byte(types, want, i as u64, marks[i]) {
            return false;
        }
    }
    true
}

/// Whether one byte of the type may be read.
fn permits_byte(types: &Types, want: TypeId, byte: u64, mark: Option<(u32, u8)>) -> bool
    requires want { want.0 < length types.now.terms }
    requires complete { IsTrue (is_complete_in (env types.now) (tree types.now want.0)) }
    requires small { (layout_in (env types.now) (tree types.now want.0)).size ≤ 2 ^ 32 }
    ensures { result ≡ permits_byte types.now (leaves (layout_in (env types.now) (tree types.now want.0)).parts) byte mark }
{
    match mark {
        None => true,
        Some((stored, place)) => {
            lies_in(types, want, byte, Sought::Accepting { stored, place })
                || !lies_in(types, want, byte, Sought::Any)
        }
    }
}
