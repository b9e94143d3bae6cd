//! Accesses found by address.
ghost use Rattle.std.specs.Prelude.{◌≡◌, ◌≤◌, ◌<◌, ◌+◌, ◌^◌, ℕ, true, false, OnOk};
ghost use Rattle.pv_seq.specs.Marks.{is_marked_at, AllMarked, NoneMarked, KeepsMarks};

use crate::NoMemory;
use std::collections::BTreeSet;

/// Marks the bytes of the access with this number.
pub(crate) fn mark(
    marks: &mut BTreeSet<(u64, usize)>,
    place: u64,
    length: u64,
    number: usize,
) -> Result<(), NoMemory>
    requires { place + length < 2 ^ 64 }
    ensures kept { KeepsMarks marks.old marks.new }
    ensures marked { OnOk result (AllMarked marks.new place length number) }
{
    for i in 0..length {
        marks.insert((place + i, number))?;
    }
    Ok(())
}

/// Takes away the marks of the access with this number at these bytes.
pub(crate) fn unmark(marks: &mut BTreeSet<(u64, usize)>, place: u64, length: u64, number: usize)
    requires { place + length < 2 ^ 64 }
    ensures { (byte n : ℕ) → n < number → is_marked_at marks.new byte n ≡ is_marked_at marks.old byte n }
{
    for i in 0..length {
        marks.remove(&(place + i, number));
    }
}

/// Whether an access with a number from `start` to before `end` is marked at this byte.
fn is_touched(marks: &BTreeSet<(u64, usize)>, byte: u64, start: usize, end: usize) -> bool
    requires { start ≤ end }
    ensures { result ≡ false → (n : ℕ) → start ≤ n → n < end → is_marked_at marks.now byte n ≡ false }
{
    marks.range((byte, start)..(byte, end)).next().is_some()
}

/// Whether an access with a number from `start` to before `end` is marked at one of these bytes.
pub(crate) fn are_touched(
    marks: &BTreeSet<(u64, usize)>,
    place: u64,
    length: u64,
    start: usize,
    end: usize,
) -> bool
    requires order { start ≤ end }
    requires bytes { place + length < 2 ^ 64 }
    ensures { result ≡ false → NoneMarked marks.now place length start end }
{
    for i in 0..length {
        if is_touched(marks, place + i, start, end) {
            return true;
        }
    }
    false
}
