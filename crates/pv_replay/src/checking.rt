//! The check of a journal.
ghost use Rattle.std.specs.Prelude.{◌≡◌, ℕ, List, IfOk};
ghost use Rattle.pv_serve.specs.Replies as replies;
ghost use Rattle.pv_serve.specs.Replying.{reply_view, IsOwn};
ghost use Rattle.pv_replay.specs.Answers as specified;
ghost use Rattle.pv_replay.specs.Answers.{IsChecked};

use pv_journal::{JournalError, check};
use pv_script::Names;
use pv_serve::{NoMemory, Reply};
use std::alloc::Global;

/// The most bytes that a journal may have.
pub const JOURNAL_LIMIT: usize = 16_777_216;

const ACCEPTED: u8 = 0;

const REJECTED: u8 = 17;

const TOO_LONG: u8 = 18;

/// Whether a text is a journal that obeys the memory model, or which line of it is the first that is wrong. The only error is want of
/// memory.
pub fn checked(alloc: Global, bytes: &[u8]) -> Result<Reply, NoMemory>
    ensures checked { IfOk result (λ a. IsChecked bytes.now (reply_view a)) }
    ensures own { IfOk result (λ a. IsOwn a.status) }
{
    if bytes.len() > JOURNAL_LIMIT {
        return too_long(alloc);
    }
    let mut names = Names::new(alloc);
    match check(alloc, bytes, &mut names) {
        Ok(lines) => accepted(alloc, lines.len() as u64),
        Err(JournalError::Bad { line }) => rejected(alloc, line),
        Err(JournalError::NoMemory) => Err(NoMemory),
    }
}

// What is told of a text that is too long. The only error is want of memory.
fn too_long(alloc: Global) -> Result<Reply, NoMemory>
    ensures { IfOk result (λ a. reply_view a ≡ specified.too_long) }
{
    Ok(Reply {
        status: TOO_LONG,
        text: Vec::from_slice(alloc, b"journal size\n")?,
    })
}

// What is told of a journal of so many lines. The only error is want of memory.
fn accepted(alloc: Global, events: u64) -> Result<Reply, NoMemory>
    ensures { IfOk result (λ a. reply_view a ≡ specified.acceptance events) }
{
    Ok(Reply {
        status: ACCEPTED,
        text: format!(in alloc; "journal ok events={events}\n")?.into_bytes(),
    })
}

// What is told of a text whose first wrong line is this one. The only error is want of memory.
fn rejected(alloc: Global, line: u64) -> Result<Reply, NoMemory>
    ensures { IfOk result (λ a. reply_view a ≡ specified.rejection line) }
{
    Ok(Reply {
        status: REJECTED,
        text: format!(in alloc; "journal bad line={line}\n")?.into_bytes(),
    })
}

/// A law: a text gets one answer at most. So each status comes exactly where its own case of the definition holds.
pub fn one_answer()
    ensures { (bytes : List ℕ) (a b : replies.Reply) → IsChecked bytes a → IsChecked bytes b → a ≡ b }
{
    pv_journal::one_verdict();
}
