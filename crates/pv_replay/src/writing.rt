//! The journal of a source's run.
ghost use Rattle.std.specs.Prelude.{◌≡◌, ◌∷◌, [], ℕ, List, true, None, IfOk};
ghost use Rattle.pv_watch.specs.Slots.{Present};
ghost use Rattle.pv_watch.specs.Kinds.{journal_kind};
ghost use Rattle.pv_watch.specs.Halls.{hall_slots};
ghost use Rattle.pv_serve.specs.ReadWords.{IsBound};
ghost use Rattle.pv_serve.specs.Judging.{Shown, verdict_of};
ghost use Rattle.pv_serve.specs.ReportParts.{report_line, status_of};
ghost use Rattle.pv_serve.specs.Replying.{reply_view, IsOwn};
ghost use Rattle.pv_serve.specs.Settling.{IsOutcome};
ghost use Rattle.pv_serve.specs.Outside.{Sunk, Halls};
ghost use Rattle.pv_replay.specs.Answering.{IsRunReply};

use pv_serve::{JobText, Judgement, NoMemory, Nowhere, Reply, judge, line, status};
use pv_watch::{Hall, Watch};
use std::alloc::Global;

// The status of a journal that is written, however its run ended.
const WRITTEN: u8 = 0;

/// Runs a source with its script before the watcher in the hall, with at most so many turns: its journal, of lines that obey, or the line of
/// the refusal. What the run prints is dropped. The only error is want of memory.
pub(crate) fn journal_of(
    alloc: Global,
    text: &JobText,
    turns: u64,
    hall: &mut Hall,
) -> Result<Reply, NoMemory>
    requires bound { IsBound turns }
    requires hall { hall_slots hall.old its_kind its_wants seen ≡ Present journal_kind 65536 [] ∷ [] }
    ensures written { IfOk result (λ a. IsRunReply text.now.source.items text.now.script.items turns (reply_view a)) }
    ensures own { IfOk result (λ a. IsOwn a.status) }
{
    let source = text.source.as_slice();
    let script = text.script.as_slice();
    let mut output = Nowhere;
    let Ok(judgement) = judge(alloc, source, script, turns, true, None, &mut output, hall) else {
        return Err(NoMemory);
    };
    reply_to(alloc, &judgement, hall)
}

// The journal of a run that was made before the watcher in the hall, or the line of the refusal. A judgement is let go in one place, by its
// caller, since it has the world of a run: at each way out of a function that owns one all its tables go.
fn reply_to(alloc: Global, judgement: &Judgement, hall: &Hall) -> Result<Reply, NoMemory>
    ensures written { (source script : List ℕ) (bound : ℕ) (out : Sunk) (told : Halls) → told.old ≡ Present journal_kind 65536 [] ∷ []
        → told.new ≡ hall_slots hall.now its_kind its_wants seen → IsOutcome source script bound true None out told judgement.now
        → IfOk result (λ a. IsRunReply source script bound (reply_view a)) }
    ensures own { IfOk result (λ a. IsOwn a.status) }
{
    match judgement {
        Judgement::Ran { names, .. } => match hall.texts(names) {
            Ok(text) => Ok(Reply {
                status: WRITTEN,
                text,
            }),
            Err(_) => Err(NoMemory),
        },
        _ => refusal(alloc, judgement),
    }
}

// The line that tells a judgement, and its status. The only error is want of memory.
fn refusal(alloc: Global, judgement: &Judgement) -> Result<Reply, NoMemory>
    ensures reply { (shown : Shown) → IfOk result (λ a. reply_view a
        ≡ record { status = status_of (verdict_of judgement.now shown); text = report_line (verdict_of judgement.now shown) }) }
    ensures own { IfOk result (λ a. IsOwn a.status) }
{
    let text = line(alloc, judgement)?;
    Ok(Reply {
        status: status(judgement),
        text,
    })
}
