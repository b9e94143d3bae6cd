// The plain types of a call: arguments, replies, and what happened within it.
use pv_inst::{CreateError, Tried};
use pv_num::IntKind;
use pv_object::{Pointer, Value};

/// What type an argument has, as `printf` looks at it (7.21.6.1p8).
#[derive(Clone, Copy)]
pub enum Shape {
    /// An integer type, promoted (6.3.1.1p2).
    Int(IntKind),
    /// A pointer to `void`, qualified or not.
    Void,
    /// A pointer to a character type, qualified or not.
    Text,
    /// Any other type.
    Other,
}

/// An argument of a call.
#[derive(Clone, Copy)]
pub struct Arg {
    /// Its value.
    pub value: Value,
    /// What type it has.
    pub shape: Shape,
}

/// What a call answers that does not stop.
#[derive(Clone, Copy)]
pub enum Reply {
    /// The function returns no value.
    Nothing,
    /// The value that the function returns.
    Value(Value),
    /// The program ends with this status (7.22.4.4).
    Exit(i32),
    /// The program ends abnormally (7.22.4.1).
    Abort,
    /// The script's place for the new allocation cannot be had.
    Placement(CreateError),
}

/// What happened within a call, as the events of a run are told.
#[derive(Clone, Copy)]
pub enum Note {
    /// An instance was made.
    Made(u64),
    /// An instance ended.
    Ended {
        /// Its number.
        inst: u64,
    },
    /// An instance became exposed.
    Exposed(u64),
    /// A pointer was used whose name stood for two instances before.
    Used {
        /// What the use found.
        tried: Tried,
        /// The number of its test: see `pv_inst::Test::number`.
        test: u8,
    },
    /// The call stops by the check of a pointer.
    Stopped {
        /// What its name stood for before, the low one.
        low: Option<u64>,
        /// The high one.
        high: Option<u64>,
        /// The number of the pair, where its name is one, settled or not.
        pair: Option<u64>,
    },
}

/// A pointer that is an argument, and what is noted last where a check of it stops the call.
#[derive(Clone, Copy)]
pub(crate) struct Given {
    pub(crate) pointer: Pointer,
    pub(crate) stopped: Note,
}

/// An argument behind a format, and what is noted last where a check of it stops the call.
#[derive(Clone, Copy)]
pub(crate) struct Offered {
    pub(crate) arg: Arg,
    pub(crate) stopped: Note,
}
