// Names of a unit.
ghost use Rattle.std.specs.Prelude.{◌≡◌, ◌<◌, length};
ghost use Rattle.pv_typed.specs.Tables.{whole_unit};
ghost use Rattle.pv_typed.specs.TypedUnits.{name_at};
ghost use Rattle.pv_describe.specs.Describing as described;
ghost use Rattle.pv_values.specs.TypeTexts as declared;

use pv_typed::TypedUnit;

/// The text of a name (C17 6.4.2.1); no byte where there is none.
pub(crate) fn name_of(u: &TypedUnit, name: u32) -> &[u8]
    ensures { result.now ≡ name_at (whole_unit u.now) name }
{
    let names = u.names();
    if name < names.len() {
        names.text(name)
    } else {
        &[]
    }
}

/// The text of a name of the source: they stand behind two that no source has.
pub(crate) fn source_name(u: &TypedUnit, name: u32) -> &[u8]
    ensures { result.now ≡ described.source_name (whole_unit u.now) name }
{
    let names = u.names();
    let place = u64::from(name) + 2;
    if place < u64::from(names.len()) {
        names.text(place as u32)
    } else {
        &[]
    }
}

/// The name of a structure or union, and `{..}` where it has none (C17 6.7.2.3).
pub(crate) fn tag_name(u: &TypedUnit, tag: u32) -> &[u8]
    requires { tag < length u.now.known.tags }
    ensures { result.now ≡ declared.tag_name (whole_unit u.now) tag }
{
    match u.types().tag_name(tag) {
        Some(name) => source_name(u, name),
        None => b"{..}",
    }
}
