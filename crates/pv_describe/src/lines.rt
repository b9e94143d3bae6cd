// The lines of a layout.
ghost use Rattle.std.specs.Prelude.{◌≡◌, IfOk};
ghost use Rattle.pv_describe.specs.DescribingParts as described_parts;

use pv_types::NoMemory;
use std::alloc::Global;

/// The line of a member (C17 6.7.2.1): its name, where it begins, and how many bytes it takes.
pub(crate) fn member_line(
    alloc: Global,
    name: &[u8],
    offset: u64,
    size: u64,
) -> Result<Vec<u8>, NoMemory>
    ensures { IfOk result (λ v. v.items ≡ described_parts.member_line name.now offset size) }
{
    let mut line = Vec::from_slice(alloc, b"  ")?;
    line.extend_from_slice(name)?;
    line.extend_from_slice(format!(in alloc; " offset={offset} size={size}\n")?.as_bytes())?;
    Ok(line)
}

/// The first line of a structure or union: the word, its name, its size and its alignment, in bytes (C17 6.2.8p1).
pub(crate) fn head_line(
    alloc: Global,
    word: &[u8],
    name: &[u8],
    size: u64,
    align: u64,
) -> Result<Vec<u8>, NoMemory>
    ensures { IfOk result (λ v. v.items ≡ described_parts.head_line word.now name.now size align) }
{
    let mut line = Vec::from_slice(alloc, word)?;
    line.extend_from_slice(name)?;
    line.extend_from_slice(format!(in alloc; " size={size} align={align}\n")?.as_bytes())?;
    Ok(line)
}
