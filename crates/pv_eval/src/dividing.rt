// Divisions by sizes of scalars. Most are by 1, 4 or 8, and a division by a number that is known takes a fraction of the time that
// one by any number takes.
ghost use Rattle.std.specs.Prelude.{◌≡◌, ◌≤◌, ◌%◌, ◌/◌, ◌==◌};

/// Whether a number of bytes, or an address, is a multiple of a size.
pub(crate) fn is_multiple(n: u64, size: u64) -> bool
    requires { 1 ≤ size }
    ensures { result ≡ (n % size == 0) }
{
    if size == 4 {
        return n % 4 == 0;
    }
    if size == 8 {
        return n % 8 == 0;
    }
    if size == 1 {
        return true;
    }
    n % size == 0
}

/// How many times a size goes into a number of bytes.
pub(crate) fn quotient(n: u64, size: u64) -> u64
    requires { 1 ≤ size }
    ensures { result ≡ n / size }
{
    if size == 4 {
        return n / 4;
    }
    if size == 8 {
        return n / 8;
    }
    if size == 1 {
        return n;
    }
    n / size
}
