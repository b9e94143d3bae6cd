// Parts of texts. The only error of these functions is want of memory; some of the text may have been added then.
ghost use Rattle.std.specs.Prelude.{◌≡◌, ◌++◌, ◌∷◌, [], OnOk};
ghost use Rattle.std.specs.Fmt.{decimal, signed_decimal};
ghost use Rattle.pv_print.specs.Texts.{address_text};
ghost use Rattle.pv_values.specs.TypeTexts as declared;
ghost use Rattle.pv_values.specs.Values as specified;

use pv_print::{address, number};
use pv_types::NoMemory;
use std::alloc::Global;

/// Adds bytes.
pub(crate) fn add(text: &mut Vec<u8>, bytes: &[u8]) -> Result<(), NoMemory>
    ensures { OnOk result (text.new.items ≡ text.old.items ++ bytes.now) }
{
    text.extend_from_slice(bytes)?;
    Ok(())
}

/// Adds a number, in decimal.
pub(crate) fn add_number(alloc: Global, text: &mut Vec<u8>, n: u64) -> Result<(), NoMemory>
    ensures { OnOk result (text.new.items ≡ text.old.items ++ decimal n) }
{
    let digits = format!(in alloc; "{n}")?;
    text.extend_from_slice(digits.as_bytes())?;
    Ok(())
}

/// Adds a number that may be negative, in decimal.
pub(crate) fn add_signed(alloc: Global, text: &mut Vec<u8>, n: i128) -> Result<(), NoMemory>
    ensures { OnOk result (text.new.items ≡ text.old.items ++ signed_decimal n) }
{
    let digits = match number(alloc, n) {
        Ok(digits) => digits,
        Err(_) => return Err(NoMemory),
    };
    text.extend_from_slice(digits.as_slice())?;
    Ok(())
}

/// Adds an address.
pub(crate) fn add_address(alloc: Global, text: &mut Vec<u8>, a: u64) -> Result<(), NoMemory>
    ensures { OnOk result (text.new.items ≡ text.old.items ++ address_text a) }
{
    let digits = match address(alloc, a) {
        Ok(digits) => digits,
        Err(_) => return Err(NoMemory),
    };
    text.extend_from_slice(digits.as_slice())?;
    Ok(())
}

/// Adds what stands before number i of a list.
pub(crate) fn add_separator(text: &mut Vec<u8>, i: u64) -> Result<(), NoMemory>
    ensures { OnOk result (text.new.items ≡ text.old.items ++ declared.separator i) }
{
    if i == 0 { Ok(()) } else { add(text, b", ") }
}

/// Adds what stands at number i of a list in place of those behind it, where i is the first that is not shown.
pub(crate) fn add_cut(text: &mut Vec<u8>, i: u64, most: u64) -> Result<(), NoMemory>
    ensures { OnOk result (text.new.items ≡ text.old.items ++ declared.cut most i) }
{
    if i == most {
        add(text, b", ..")
    } else {
        Ok(())
    }
}

/// Adds a byte.
pub(crate) fn add_byte(text: &mut Vec<u8>, byte: u8) -> Result<(), NoMemory>
    ensures { OnOk result (text.new.items ≡ text.old.items ++ byte ∷ []) }
{
    text.push(byte)?;
    Ok(())
}

/// Adds what stands behind the parts of a value, where there are more.
pub(crate) fn add_more(text: &mut Vec<u8>, more: bool) -> Result<(), NoMemory>
    ensures { OnOk result (text.new.items ≡ text.old.items ++ specified.more_text more) }
{
    if more { add(text, b", ..") } else { Ok(()) }
}
