//! How many of the cases agree with what is wanted.

/// How many cases agree with what is wanted of them, and how many differ.
#[derive(Clone, Copy)]
pub(crate) struct Count {
    pub(crate) agree: u64,
    pub(crate) differ: u64,
}

impl Count {
    /// Nothing was compared yet.
    pub(crate) fn new() -> Count {
        Count {
            agree: 0,
            differ: 0,
        }
    }

    /// The count with one case more.
    pub(crate) fn and(self, agrees: bool) -> Count {
        if agrees {
            Count {
                agree: self.agree.saturating_add(1),
                differ: self.differ,
            }
        } else {
            Count {
                agree: self.agree,
                differ: self.differ.saturating_add(1),
            }
        }
    }
}
