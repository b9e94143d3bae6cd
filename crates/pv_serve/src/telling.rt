//! Writing a report, and the statuses that no verdict has.
ghost use Rattle.std.specs.Prelude.{◌≢◌};
ghost use Rattle.pv_serve.specs.Outside.{sink_change};
ghost use Rattle.pv_serve.specs.Replying.{IsHanded, reply_view};

use pv_script::{Sink, write_all};

/// The status where the words are no job.
pub const NO_JOB: u8 = 10;

/// The status where a file could not be read.
pub const READ_FAULT: u8 = 11;

/// The status where a write failed.
pub const WRITE_FAULT: u8 = 12;

/// The status where memory ran out.
pub const NO_MEMORY: u8 = 13;

/// A text of the report, and the status that goes with it.
#[derive(Drop)]
pub struct Reply {
    pub status: u8,
    pub text: Vec<u8>,
}

/// Writes a text of the report, and answers the status that goes with it; where a write fails, [`WRITE_FAULT`], and a first part of
/// the text was written.
pub fn tell<R: Sink>(report: &mut R, text: &[u8], status: u8) -> u8
    requires { status ≢ 12 }
    ensures { IsHanded (sink_change R.written R.faults report.old report.new) result (record { status = status; text = text.now }) }
{
    match write_all(report, text) {
        Ok(()) => status,
        Err(_) => WRITE_FAULT,
    }
}

/// Writes a reply, as [`tell`] does, and answers its status.
pub fn tell_reply<R: Sink>(report: &mut R, reply: &Reply) -> u8
    requires { reply.now.status ≢ 12 }
    ensures { IsHanded (sink_change R.written R.faults report.old report.new) result (reply_view reply.now) }
{
    tell(report, reply.text.as_slice(), reply.status)
}
