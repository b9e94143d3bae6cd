// Parts of lines. The only error of these functions is want of memory; some of the text may have been added then.
ghost use Rattle.std.specs.Prelude.{◌≡◌, ◌++◌, OnOk};
ghost use Rattle.std.specs.Fmt.{decimal};
ghost use Rattle.pv_print.specs.Texts.{address_text};
ghost use Rattle.pv_journal.specs.Journals.{id_text};
ghost use Rattle.pv_journal.specs.Lines.{id_under};
ghost use Rattle.pv_shown.specs.Shown as specified;

use crate::NoMemory;
use crate::past::text_of;
use pv_journal::Key;
use pv_print::address;
use pv_script::Names;
use std::alloc::Global;

/// Adds an instance's name, and which of this name it is.
pub(crate) fn add_id(
    alloc: Global,
    text: &mut Vec<u8>,
    names: &Names,
    key: Key,
) -> Result<(), NoMemory>
    ensures { OnOk result (text.new.items ≡ text.old.items ++ id_text (id_under names.now key)) }
{
    text.extend_from_slice(text_of(names, key.name))?;
    let k = key.k;
    let number = format!(in alloc; "#{k}")?;
    text.extend_from_slice(number.as_bytes())?;
    Ok(())
}

/// Adds a word and an address.
pub(crate) fn add_address(
    alloc: Global,
    text: &mut Vec<u8>,
    word: &[u8],
    a: u64,
) -> Result<(), NoMemory>
    ensures { OnOk result (text.new.items ≡ text.old.items ++ (word.now ++ address_text a)) }
{
    text.extend_from_slice(word)?;
    let digits = match address(alloc, a) {
        Ok(digits) => digits,
        Err(_) => return Err(NoMemory),
    };
    text.extend_from_slice(digits.as_slice())?;
    Ok(())
}

/// Adds a word and a number.
pub(crate) fn add_number(
    alloc: Global,
    text: &mut Vec<u8>,
    word: &[u8],
    n: u64,
) -> Result<(), NoMemory>
    ensures { OnOk result (text.new.items ≡ text.old.items ++ (word.now ++ decimal n)) }
{
    text.extend_from_slice(word)?;
    let digits = format!(in alloc; "{n}")?;
    text.extend_from_slice(digits.as_bytes())?;
    Ok(())
}

/// Adds the line of a count.
pub(crate) fn add_count(
    alloc: Global,
    text: &mut Vec<u8>,
    word: &str,
    count: u64,
) -> Result<(), NoMemory>
    ensures { OnOk result (text.new.items ≡ text.old.items ++ specified.count_line word.now count) }
{
    let line = format!(in alloc; "{word} count={count}\n")?;
    text.extend_from_slice(line.as_bytes())?;
    Ok(())
}
