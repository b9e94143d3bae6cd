//! Looking up what stands in the tables.
ghost use Rattle.std.specs.Prelude.{◌≡◌, ◌≤◌, length, map, nat_eq, IfSome};
ghost use Rattle.std.specs.List.{starts_with};
ghost use Rattle.std.specs.Option.{option_map};
ghost use Rattle.pv_lex.specs.Tables.{first_row, row_of};

/// A spelling, and what it stands for.
pub(crate) struct Row<T: Copy> {
    pub text: &'static [u8],
    pub value: T,
}

/// Whether two bytes are the same.
#[inline(always)]
fn are_same(a: u8, b: u8) -> bool
    ensures { result ≡ nat_eq a b }
{
    a == b
}

/// Whether the text begins with a spelling. That has few bytes, and is mostly known where this is called, so that no
/// loop is left there.
#[inline(always)]
fn begins(text: &[u8], front: &[u8]) -> bool
    ensures { result ≡ starts_with nat_eq text.now front.now }
{
    let mut n = 0;
    while n < front.len() {
        if n >= text.len() {
            return false;
        }
        if !are_same(front[n], text[n]) {
            return false;
        }
        n += 1;
    }
    true
}

/// The first row whose spelling stands at the front of the text: the spelling's length, and what
/// it stands for. A table is mostly known where it is called, and short.
#[inline(always)]
pub(crate) fn first_row<T: Copy>(rows: &[Row<T>], text: &[u8]) -> Option<(usize, T)>
    ensures row { result ≡ option_map (λ r. (length r.0, r.1)) (first_row (map (λ r. (r.text.now, r.value)) rows.now) text.now) }
    ensures within { IfSome result (λ r. r.0 ≤ length text.now) }
{
    let mut i = 0;
    while i < rows.len() {
        let row = &rows[i];
        if begins(text, row.text) {
            return Some((row.text.len(), row.value));
        }
        i += 1;
    }
    None
}

/// What the row whose spelling is the whole text stands for.
#[inline(always)]
pub(crate) fn row_of<T: Copy>(rows: &[Row<T>], text: &[u8]) -> Option<T>
    ensures { result ≡ row_of (map (λ r. (r.text.now, r.value)) rows.now) text.now }
{
    let mut i = 0;
    while i < rows.len() {
        let row = &rows[i];
        if text == row.text {
            return Some(row.value);
        }
        i += 1;
    }
    None
}
