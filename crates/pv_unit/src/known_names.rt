//! Names that have a meaning of their own (C17 5.1.2.2.1p1, 7.21.6.3p1).
ghost use Rattle.std.specs.Prelude.{◌≡◌, ◌<◌};
ghost use Rattle.pv_check.specs.Texts.{same_text, has_text};
ghost use Rattle.pv_check.specs.PrintfFormats.{is_printf};
ghost use Rattle.pv_typed.specs.Mains.{named_main};
ghost use Rattle.pv_unit.specs.Redeclarations.{unit_name};

use pv_typed::TypedUnit;

/// Whether the two are one text.
fn same_text(a: &[u8], b: &[u8]) -> bool
    ensures { result ≡ same_text a.now b.now }
{
    a == b
}

/// Whether a name of the source is this text.
fn has_text(into: &TypedUnit, name: u32, text: &[u8]) -> bool
    ensures { result ≡ has_text into.now.names (unit_name name) text.now }
{
    let n = name as u64 + 2;
    if n < into.names().len() as u64 {
        same_text(into.names().text(n as u32), text)
    } else {
        same_text(&[], text)
    }
}

/// Whether a name of the source is `main`.
pub(crate) fn is_main(into: &TypedUnit, name: u32) -> bool
    ensures { result ≡ named_main into.now.names (unit_name name) }
{
    has_text(into, name, b"main")
}

/// Whether it is `printf`.
pub(crate) fn is_printf(into: &TypedUnit, name: u32) -> bool
    ensures { result ≡ is_printf into.now.names (unit_name name) }
{
    has_text(into, name, b"printf")
}
