//! Runs one C source as the words of a command line ask.
//!
//! [`serve`] does all that the program does, over whatever files and sinks it is handed: it reads the words, the source
//! and its script of addresses, judges them, and reports. [`serve_shipped`] is that before the program's own watchers.
//! [`judge`] goes from the bytes of a source to the end of its run, which [`line`] and [`status`] tell, and [`check`] to
//! its typing. What a program with other words needs of these stands by itself: [`read_job`], [`read_script`], [`tell`], [`tell_reply`], [`number_to`] and [`Nowhere`].
#![tactic(auto)]

mod checking;
mod discarding;
mod judging;
mod loading;
mod reading;
mod report;
mod serving;
mod shipped;
mod sides;
mod tasks;
mod telling;
mod text;
mod words;

pub use checking::{Refused, SOURCE_LIMIT, check};
pub use discarding::Nowhere;
pub use judging::{Judgement, first_bytes_decide, judge, one_end, one_verdict, watchers_tell};
pub use loading::{Loaded, load};
pub use pv_types::NoMemory;
pub use reading::{JobText, SCRIPT_LIMIT, read_job, read_script};
pub use report::{line, run_line, status};
pub use serving::{serve, serve_calmly};
pub use shipped::{STORY_EVENTS, serve_shipped, shipped_tell, words_of_watchers};
pub use sides::sides_in;
pub use telling::{NO_JOB, NO_MEMORY, READ_FAULT, Reply, WRITE_FAULT, tell, tell_reply};
pub use text::Text;
pub use words::{
    DEFAULT_TURNS, MOST_TURNS, Mode, Options, Task, Watched, no_options, number_to, with_option,
};
