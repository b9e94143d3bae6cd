// Names of instances by their numbers.
ghost use Rattle.std.specs.Prelude.{IfOk};
ghost use Rattle.std.specs.Option.{option_map};
ghost use Rattle.pv_journal.specs.Views.{id_of, fact_of};
ghost use Rattle.pv_journal.specs.Standing.{IsCalled, IsCalledIf, IsNumbered, IsMore};

use crate::line::{Key, Said};
use crate::reading::{Called, Told};
use pv_script::{Names, NoMemory};

/// What an instance is called by, with its name's number; a name that is new is added.
fn key_of(names: &mut Names, id: &Called) -> Result<Key, NoMemory>
    ensures called { IfOk result (IsCalled names.new (id_of id.now)) }
    ensures more { IsMore names.old names.new }
{
    let name = names.add(&id.name)?;
    Ok(Key { name, k: id.k })
}

/// The same of two.
fn keys_of(names: &mut Names, a: &Called, b: &Called) -> Result<(Key, Key), NoMemory>
    ensures first { IfOk result (λ keys. IsCalled names.new (id_of a.now) keys.0) }
    ensures second { IfOk result (λ keys. IsCalled names.new (id_of b.now) keys.1) }
    ensures more { IsMore names.old names.new }
{
    let first = key_of(names, a)?;
    let second = key_of(names, b)?;
    Ok((first, second))
}

/// The same of one or two.
fn left_keys(
    names: &mut Names,
    first: &Called,
    second: &Option<Called>,
) -> Result<(Key, Option<Key>), NoMemory>
    ensures first { IfOk result (λ keys. IsCalled names.new (id_of first.now) keys.0) }
    ensures second { IfOk result (λ keys. IsCalledIf names.new (option_map id_of second.now) keys.1) }
    ensures more { IsMore names.old names.new }
{
    match second {
        Some(second) => {
            let (first, second) = keys_of(names, first, second)?;
            Ok((first, Some(second)))
        }
        None => {
            let first = key_of(names, first)?;
            Ok((first, None))
        }
    }
}

/// What a line says, with names by number.
#[tactic(auto, using(crate::proofs::Added::more_itself))]
pub(crate) fn numbered(names: &mut Names, told: &Told) -> Result<Said, NoMemory>
    ensures said { IfOk result (IsNumbered names.new (fact_of told.now)) }
    ensures more { IsMore names.old names.new }
{
    match told {
        Told::Made { id, base, size } => {
            let key = key_of(names, id)?;
            Ok(Said::Made {
                key,
                base: *base,
                size: *size,
            })
        }
        Told::Ended { id } => {
            let key = key_of(names, id)?;
            Ok(Said::Ended { key })
        }
        Told::Exposed { id } => {
            let key = key_of(names, id)?;
            Ok(Said::Exposed { key })
        }
        Told::Paired {
            pair,
            address,
            low,
            high,
        } => {
            let (low, high) = keys_of(names, low, high)?;
            Ok(Said::Pair {
                pair: *pair,
                address: *address,
                low,
                high,
            })
        }
        Told::Used {
            pair,
            test,
            first,
            second,
        } => {
            let (first, second) = left_keys(names, first, second)?;
            Ok(Said::Used {
                pair: *pair,
                test: *test,
                first,
                second,
            })
        }
        Told::Fault => Ok(Said::Fault),
    }
}
