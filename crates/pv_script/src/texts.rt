// A text cut into lines, and a line into words.
ghost use Rattle.std.specs.Prelude.{◌≡◌, ◌==◌, map, IfOk};
ghost use Rattle.std.specs.List.{slice_split};
ghost use Rattle.pv_script.specs.Scripts.{says_nothing};

use crate::NoMemory;
use std::alloc::Global;

/// What stands between the marks, in order: the lines of a text, or the words of a line.
///
/// There is one piece more than there are marks, so the last piece is empty where a mark ends the text.
pub fn pieces(alloc: Global, text: &[u8], mark: u8) -> Result<Vec<&[u8]>, NoMemory>
    ensures { IfOk result (λ v. map (λ x. x.now) v.items ≡ slice_split (λ b. b == mark) text.now) }
{
    match text.split(|b| *b == mark).collect(alloc) {
        Ok(cut) => Ok(cut),
        Err(_) => Err(NoMemory),
    }
}

/// The line says nothing: it is empty, or begins with `#`.
pub fn says_nothing(line: &[u8]) -> bool
    ensures { result ≡ says_nothing line.now }
{
    match line.first() {
        Some(c) => *c == b'#',
        None => true,
    }
}
