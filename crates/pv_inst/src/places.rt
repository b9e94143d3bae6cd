// The index of live instances by their bases.
ghost use Rattle.std.specs.Prelude.{◌≡◌, ◌<◌, ◌≤◌, ℕ, None, Some, IsSome, IfSome, IfNone};
ghost use Rattle.std.specs.Ordering.{nat_cmp};
ghost use Rattle.std.specs.BTreeMap.{get};

use std::collections::BTreeMap;

/// The entry of greatest base below an address.
pub(crate) fn below(places: &BTreeMap<u64, u64>, a: u64) -> Option<(u64, u64)>
    ensures there { IfSome result (λ e. get nat_cmp places.now e.0 ≡ Some e.1) }
    ensures low { IfSome result (λ e. e.0 < a) }
    ensures greatest { IfSome result (λ e. (q : ℕ) → q < a → IsSome (get nat_cmp places.now q) → q ≤ e.0) }
    ensures none { IfNone result ((q : ℕ) → q < a → get nat_cmp places.now q ≡ None) }
{
    match places.range(..a).next_back() {
        Some((base, number)) => Some((*base, *number)),
        None => None,
    }
}

/// The entry of least base from one address on, below another.
pub(crate) fn first_within(places: &BTreeMap<u64, u64>, from: u64, end: u64) -> Option<(u64, u64)>
    requires { from ≤ end }
    ensures there { IfSome result (λ e. get nat_cmp places.now e.0 ≡ Some e.1) }
    ensures within { IfSome result (λ e. (from ≤ e.0) × (e.0 < end)) }
    ensures least { IfSome result (λ e. (q : ℕ) → from ≤ q → q < end → IsSome (get nat_cmp places.now q) → e.0 ≤ q) }
    ensures none { IfNone result ((q : ℕ) → from ≤ q → q < end → get nat_cmp places.now q ≡ None) }
{
    match places.range(from..end).next() {
        Some((base, number)) => Some((*base, *number)),
        None => None,
    }
}
