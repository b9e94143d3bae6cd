//! The formats of `printf` (C17 7.21.6.1).
ghost use Rattle.std.specs.Prelude.{◌≡◌, ◌==◌, ◌||◌, ◌∷◌, [], ℕ, List, Option, Some};
ghost use Rattle.pv_check.specs.PrintfFormats.{is_format, is_number_conversion, is_other_conversion};
ghost use Rattle.pv_check.specs.Passing.{reads, reads_if};

/// Where in a format a byte stands (C17 7.21.6.1p3, p4).
#[derive(Clone, Copy)]
pub(crate) enum Place {
    /// Outside of conversions.
    Text,
    /// Behind `%`.
    Conversion,
    /// Behind `%l`.
    LongConversion,
}

/// Whether the byte is `d`, `u` or `x`.
fn is_number_conversion(c: u8) -> bool
    ensures { result ≡ is_number_conversion c }
{
    c == b'd' || (c == b'u' || c == b'x')
}

/// Whether the byte is `c`, `s`, `p` or `%`.
fn is_other_conversion(c: u8) -> bool
    ensures { result ≡ is_other_conversion c }
{
    c == b'c' || (c == b's' || (c == b'p' || c == b'%'))
}

/// Where the byte behind this one stands, `None` where no conversion begins so.
fn behind(place: Place, c: u8) -> Option<Place>
    ensures { (rest : List ℕ) → reads_if result rest ≡ reads place (c ∷ rest) }
{
    match place {
        Place::Text => {
            if c == b'%' {
                Some(Place::Conversion)
            } else {
                Some(Place::Text)
            }
        }
        Place::Conversion => {
            if c == b'l' {
                Some(Place::LongConversion)
            } else if is_number_conversion(c) || is_other_conversion(c) {
                Some(Place::Text)
            } else {
                None
            }
        }
        Place::LongConversion => {
            if is_number_conversion(c) {
                Some(Place::Text)
            } else {
                None
            }
        }
    }
}

/// Whether a format may end there.
fn is_text(place: Place) -> bool
    ensures { result ≡ reads place [] }
{
    match place {
        Place::Text => true,
        Place::Conversion => false,
        Place::LongConversion => false,
    }
}

/// Whether every `%` of a format begins a conversion of the profile (C17 7.21.6.1p8).
pub(crate) fn is_format(bytes: &[u8]) -> bool
    ensures { result ≡ is_format bytes.now }
{
    let mut place = Place::Text;
    let mut i = 0;
    while i < bytes.len() {
        let Some(next) = behind(place, bytes[i]) else {
            return false;
        };
        place = next;
        i += 1;
    }
    is_text(place)
}
