//! Classes of bytes, and how far a class reaches.
ghost use Rattle.std.specs.Prelude.{◌≡◌, ◌≤◌, length, drop};
ghost use Rattle.pv_lex.specs.Bytes.{is_white, is_letter, is_in, run};

/// A class of bytes.
#[derive(Clone, Copy)]
pub(crate) enum Class {
    /// Letters, digits and `_`, which make up an identifier (C17 6.4.2.1p1).
    Word,
    /// Decimal digits (C17 6.4.4.1p1).
    Digit,
    /// Octal digits (C17 6.4.4.1p1).
    Octal,
    /// Hexadecimal digits (C17 6.4.4.1p1).
    Hex,
    /// Spaces and tabs, the white space of a directive (C17 6.10p5).
    Blank,
    /// What may stand before the end of a line marker.
    LineTail,
    /// What a `//` comment may hold (C17 6.4.9p2).
    InLine,
}

/// White space (C17 6.4p3), with the carriage return.
pub(crate) fn is_white(b: u8) -> bool
    ensures { result ≡ is_white b }
{
    (b >= 9 && b <= 13) || b == b' '
}

/// What an identifier may begin with (C17 6.4.2.1p1).
pub(crate) fn is_letter(b: u8) -> bool
    ensures { result ≡ is_letter b }
{
    b.is_ascii_alphabetic() || b == b'_'
}

/// Is the byte in the class?
#[inline(always)]
pub(crate) fn is_in(class: Class, b: u8) -> bool
    ensures { result ≡ is_in class b }
{
    match class {
        Class::Word => b.is_ascii_alphanumeric() || b == b'_',
        Class::Digit => b.is_ascii_digit(),
        Class::Octal => b >= b'0' && b <= b'7',
        Class::Hex => b.is_ascii_hexdigit(),
        Class::Blank => b == b' ' || b == b'\t',
        Class::LineTail => b == b' ' || b == b'\t' || b == b'\r',
        Class::InLine => b != b'\n',
    }
}

/// How many bytes at the front are of the class, which is mostly known where this is called.
#[inline(always)]
pub(crate) fn run(class: Class, text: &[u8]) -> usize
    ensures value { result ≡ run class text.now }
    ensures within { result ≤ length text.now }
{
    let mut n = 0;
    while n < text.len() && is_in(class, text[n]) {
        n += 1;
    }
    n
}

/// What is left behind so many bytes.
pub(crate) fn behind(text: &[u8], count: usize) -> &[u8]
    requires { count ≤ length text.now }
    ensures { result.now ≡ drop count text.now }
{
    text.split_at(count).1
}
