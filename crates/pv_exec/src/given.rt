// The sides that a run is given.
ghost use Rattle.std.specs.Prelude.{◌≡◌, IfSome, map};
ghost use Rattle.pv_eval.specs.Moments.{sides_of};
ghost use Rattle.pv_exec.specs.Sided.{is_high};
ghost use Rattle.pv_exec.specs.Answering.{highs};

use crate::sides::Side;
use std::alloc::Global;

// Whether a side is the high one.
fn is_high(side: Side) -> bool
    ensures { result ≡ is_high side }
{
    match side {
        Side::Low => false,
        Side::High => true,
    }
}

// Of each side whether it is the high one.
fn highs(alloc: Global, sides: &[Side]) -> Option<Vec<bool>>
    ensures { IfSome result (λ v. v.items ≡ map is_high sides.now) }
{
    let mut high = Vec::new(alloc);
    let mut i = 0;
    'sides: while i < sides.len() {
        if high.push(is_high(sides[i])).is_err() {
            return None;
        }
        i += 1;
    }
    Some(high)
}

/// The sides that are given, where there are any, as the machine takes them.
pub fn given_highs(alloc: Global, sides: Option<&[Side]>) -> Option<Option<Vec<bool>>>
    ensures { IfSome result (λ r. sides_of r ≡ highs sides.entry (λ x. x.now)) }
{
    match sides {
        None => Some(None),
        Some(sides) => match highs(alloc, sides) {
            Some(v) => Some(Some(v)),
            None => None,
        },
    }
}
