// The top call before the watchers of the program.
ghost use Rattle.std.specs.Prelude.{◌≡◌, ℕ, List, [], ◌∷◌, ◌++◌, codes, Option, Some, option_map, IsNone, IfOk, OnErr};
ghost use Rattle.pv_watch.specs.Slots.{Slot};
ghost use Rattle.pv_watch.specs.Halls.{hall_slots};
ghost use Rattle.pv_watch.specs.Kinds.{story_kind, census_kind, pointers_kind};
ghost use Rattle.pv_watch.specs.Shipped.{shipped};
ghost use Rattle.pv_serve.specs.Jobs.{Job, kinds_of, nobody};
ghost use Rattle.pv_serve.specs.Words.{texts, one_more, file_job as file_job_of};
ghost use Rattle.pv_serve.specs.Outside.{sink_change};
ghost use Rattle.pv_serve.specs.Causes.{ServedShipped};
ghost use Rattle.pv_serve.specs.Verdicts.{Course};
ghost use Rattle.pv_serve.specs.Watching.{AreTold, IsReport, kept_by, stories};
ghost use Rattle.pv_script.specs.Outside.{HoldTheSame};

use crate::NoMemory;
use crate::serving::serve;
use pv_explain::{Census, Explain, Pointers};
use pv_script::{Files, Sink};
use pv_watch::{Hall, Watch};
use std::alloc::Global;

/// How many events the story of a fault and the life of pairs are told of; the count of events has no limit.
pub const STORY_EVENTS: u64 = 65_536;

/// [`serve`] before the three watchers of the program: the story of a fault, the census of events, and the life of pairs.
///
/// The only error is want of memory for them; then nothing was done.
pub fn serve_shipped<F: Files, O: Sink, R: Sink>(
    alloc: Global,
    words: &[String],
    files: &mut F,
    out: &mut O,
    report: &mut R,
) -> Result<u8, NoMemory>
    ensures served { IfOk result (λ status. ServedShipped (texts words.now) (F.held files.old) (F.faults files.old) (F.faults files.new)
        (sink_change O.written O.faults out.old out.new) (sink_change R.written R.faults report.old report.new) status) }
    ensures files_same { HoldTheSame F.held files.old files.new }
    ensures unread { IsNone (file_job_of (texts words.now)) → files.new ≡ files.old }
    ensures undone { OnErr result ((files.new ≡ files.old) × (out.new ≡ out.old) × (report.new ≡ report.old)) }
{
    let mut watchers: Vec<Box<dyn Watch>> = Vec::new(alloc);
    watchers.push(Box::new(alloc, Explain::new(alloc, STORY_EVENTS))?)?;
    watchers.push(Box::new(alloc, Census::new(alloc, u64::MAX))?)?;
    watchers.push(Box::new(alloc, Pointers::new(alloc, STORY_EVENTS))?)?;
    let mut hall = Hall::new(alloc, watchers)?;
    Ok(serve_before(alloc, words, files, out, report, &mut hall))
}

// The same, in a hall of these three.
fn serve_before<F: Files, O: Sink, R: Sink>(
    alloc: Global,
    words: &[String],
    files: &mut F,
    out: &mut O,
    report: &mut R,
    hall: &mut Hall,
) -> u8
    requires { hall_slots hall.old its_kind its_wants seen ≡ shipped }
    ensures served { ServedShipped (texts words.now) (F.held files.old) (F.faults files.old) (F.faults files.new)
        (sink_change O.written O.faults out.old out.new) (sink_change R.written R.faults report.old report.new) result }
    ensures files_same { HoldTheSame F.held files.old files.new }
    ensures unread { IsNone (file_job_of (texts words.now)) → files.new ≡ files.old }
{
    serve(alloc, words, files, out, report, hall)
}

/// A law: what the three say behind the line of a run, for any words: each that is asked for its specified text over the first events,
/// as many as it wants.
pub fn shipped_tell()
    ensures { (asked : Option Job) (new : List Slot) (c : Course) (line text : List ℕ) → AreTold (Some c) (kept_by asked shipped) new
        → IsReport (Some c) new line text → text ≡ line ++ stories c (kept_by asked shipped) }
{}

/// A law: the words of `--watch` ask for these three, each for its own.
pub fn words_of_watchers()
    ensures story { option_map kinds_of (one_more nobody (codes "explain")) ≡ Some (story_kind.number ∷ []) }
    ensures census { option_map kinds_of (one_more nobody (codes "census")) ≡ Some (census_kind.number ∷ []) }
    ensures pairs { option_map kinds_of (one_more nobody (codes "pointers")) ≡ Some (pointers_kind.number ∷ []) }
{}
