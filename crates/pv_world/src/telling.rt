// What is told of operations: uses, makings, exposures and new pairs.
ghost use Rattle.std.specs.Prelude.{◌≡◌, ◌+◌, ◌≤◌, [], ◌∷◌, OnOk, length, drop};
ghost use Rattle.pv_inst.specs.Answers.{IsLive};
ghost use Rattle.pv_object.specs.Memory.{with_table};
ghost use Rattle.pv_world.specs.Telling.{event_of_use, event_of_making, exposures, all_told, each_paired};
ghost use Rattle.pv_world.specs.Coming.{Tells};

use pv_inst::Tried;
use pv_object::Memory;
use pv_prov::NoMemory;
use pv_watch::What;

/// Tells one more event.
pub fn tell(told: &mut Vec<What>, what: What) -> Result<(), NoMemory>
    ensures { OnOk result (Tells told.old told.new (what ∷ [])) }
{
    told.push(what)?;
    Ok(())
}

/// Tells a use by the test with this number, where its name stood for two.
#[inline(always)]
pub fn tell_used(told: &mut Vec<What>, test: u8, tried: Tried) -> Result<(), NoMemory>
    ensures { OnOk result (Tells told.old told.new (event_of_use test tried)) }
{
    match tried.pair {
        Some(pair) => tell(
            told,
            What::Tried {
                pair,
                test,
                low: tried.low,
                high: tried.high,
            },
        ),
        None => Ok(()),
    }
}

/// Tells a live instance that was made.
pub fn tell_made(told: &mut Vec<What>, memory: &Memory, i: u64) -> Result<(), NoMemory>
    requires { IsLive memory.now.table.instances i }
    ensures { OnOk result (Tells told.old told.new (event_of_making memory.now.table i)) }
{
    let Some(x) = memory.instances().info(i) else {
        unreachable!();
    };
    tell(
        told,
        What::Made {
            inst: i,
            name: x.name,
            k: x.k,
            base: x.base,
            size: x.size,
        },
    )
}

/// The instances that became exposed and were not told of yet.
pub(crate) fn tell_exposed(told: &mut Vec<What>, memory: &mut Memory) -> Result<(), NoMemory>
    ensures told { OnOk result (Tells told.old told.new (exposures memory.old.table)) }
    ensures state { OnOk result (memory.new ≡ with_table memory.old (all_told memory.old.table)) }
    ensures kept { memory.new ≡ with_table memory.old (record memory.old.table { pending = memory.new.table.pending }) }
{
    loop {
        match memory.next_exposed() {
            Some(inst) => tell(told, What::Exposed { inst })?,
            None => return Ok(()),
        }
    }
}

/// The pairs that were made since there were so many.
pub(crate) fn tell_pairs(told: &mut Vec<What>, memory: &Memory, before: u64) -> Result<(), NoMemory>
    requires { before ≤ length memory.now.table.pairs }
    ensures { OnOk result (Tells told.old told.new (each_paired memory.now.table (before + 1) (drop before memory.now.table.pairs))) }
{
    let instances = memory.instances();
    let many = instances.pairs_made();
    for k in before..many {
        let Some(twin) = instances.pair(k + 1) else {
            unreachable!();
        };
        tell(
            told,
            What::Pair {
                pair: k + 1,
                address: instances.base(twin.high),
                low: twin.low,
                high: twin.high,
            },
        )?;
    }
    Ok(())
}
