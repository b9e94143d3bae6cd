//! The errors that are no case of the specified answers.
ghost use Rattle.std.specs.Prelude.{◌≡◌};
ghost use Rattle.pv_suite.specs.declared.error.Unanswered.TheVariants as unanswered;

use std::alloc::AllocFailed;

/// Why a list was not answered.
#[derive(Clone, Copy, Debug)]
pub enum Unanswered {
    /// Memory ran out.
    NoMemory,
    /// A read failed, and the count of the name that was read rose.
    Fault,
}

impl<T: Drop> From<AllocFailed<T>> for Unanswered {
    ghost from_gives = { λ _ e. e ≡ unanswered.NoMemory };

    fn from(_: AllocFailed<T>) -> Self {
        Unanswered::NoMemory
    }
}
