// In a settled run each pair keeps one of its two from its making on.
ghost use Rattle.std.specs.Prelude.{◌≡◌, ◌≤◌, true};
ghost use Rattle.pv_prov.specs.Names.{twin_at};
ghost use Rattle.pv_prov.specs.Made.{Stands_low, Stands_high};
ghost use Rattle.pv_inst.specs.Table.{IsMadeIn};
ghost use Rattle.pv_eval.specs.Acting.{with_side};
ghost use Rattle.pv_eval.specs.ActingParts.{keeps_both};
ghost use Rattle.pv_eval.specs.Moments.{sides_of};
ghost use Rattle.pv_eval.specs.Siding.{side_for};

use pv_prov::Prov;
use pv_world::World;

/// Which side a new pair keeps: any, none that is known, or the high one or the low one.
#[derive(Clone, Copy)]
pub(crate) enum Side {
    Free,
    Ended,
    Keeps(bool),
}

/// The side of the pair that an operation made, if it made one, by how many there were before it and after it.
pub(crate) fn side_for(sides: &Option<Vec<bool>>, before: u64, after: u64) -> Side
    ensures { result ≡ side_for (sides_of sides.now) before after }
{
    match sides {
        None => Side::Free,
        Some(sides) => {
            if before < after {
                match sides.get(before as usize) {
                    Some(high) => Side::Keeps(*high),
                    None => Side::Ended,
                }
            } else {
                Side::Free
            }
        }
    }
}

/// Whether a pair keeps both of its instances.
fn keeps_both(world: &World, pair: u64) -> bool
    requires { 1 ≤ pair }
    ensures value { result ≡ keeps_both (twin_at world.now.memory.table.pairs pair) }
    ensures low { result ≡ true → Stands_low world.now.memory.table.pairs pair }
    ensures high { result ≡ true → Stands_high world.now.memory.table.pairs pair }
{
    match world.memory().instances().pair(pair) {
        Some(t) => t.keeps_low && t.keeps_high,
        None => false,
    }
}

/// A pair that keeps both keeps its high one or its low one alone.
pub(crate) fn keep_side(world: &mut World, pair: u64, high: bool)
    requires { IsMadeIn world.old.memory.table (Prov.Pair pair) }
    ensures { world.new ≡ with_side world.old pair high }
{
    if keeps_both(world, pair) {
        world.memory_mut().side(pair, high);
    }
}
