// Sides of pairs.
ghost use Rattle.std.specs.Prelude.{◌≡◌, ◌<◌, length, map, slice_get, Some, IfSome};
ghost use Rattle.pv_eval.specs.Constants.{is_high_pair};
ghost use Rattle.pv_exec.specs.Sided.{side_of};

use pv_eval::Machine;
use std::alloc::Global;
use std::marker::Model;

/// A side of a pair of candidates, of which one ends at the pair's address and one begins there.
#[derive(Clone, Copy, Debug, PartialEq, Eq)]
pub enum Side {
    /// The candidate that ends at the pair's address.
    Low,
    /// The candidate that begins there.
    High,
}

/// The sides of the pairs of a run, in the order of their numbers.
#[derive(Drop)]
pub struct Sides {
    sides: Vec<Side>,
}

impl Model for Sides {
    ghost use Rattle.std.specs.Prelude.{List};
    ghost use Rattle.pv_exec.specs.declared.sides.Side.{Side};

    ghost Value = { List Side };

    ghost view = { λ s. s.sides.items };
}

impl Sides {
    /// How many there are.
    pub fn len(&self) -> u64
        ensures { result ≡ length self.now }
    {
        self.sides.len() as u64
    }

    /// The side of the pair with this place, from 0.
    pub fn at(&self, i: u64) -> Side
        requires { i < length self.now }
        ensures { slice_get self.now i ≡ Some result }
    {
        self.sides[i as usize]
    }
}

// A side by whether it is the high one.
fn side_by(high: bool) -> Side
    ensures { result ≡ side_of high }
{
    if high { Side::High } else { Side::Low }
}

/// The side of each pair that was made: the one to which it was settled, the low one where it stands for both.
pub fn sides_of(alloc: Global, machine: &Machine) -> Option<Sides>
    ensures { IfSome result (λ s. s ≡ map side_of (map is_high_pair machine.now.moment.world.memory.table.pairs)) }
{
    let mut sides = Vec::new(alloc);
    let mut k = 0;
    let count = machine.pairs();
    'pairs: while k < count {
        if sides.push(side_by(machine.is_high(k))).is_err() {
            return None;
        }
        k += 1;
    }
    Some(Sides { sides })
}
