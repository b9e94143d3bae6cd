//! The source of a program with as many objects as one likes (C17 6.3.2.3p5, p6).
//!
//! Each object's address becomes an integer and a pointer again. Under the memory model each object is exposed by
//! that, and each integer is looked up among all that are: so the program is what large runs are measured with.
#![tactic(auto)]

mod texts;

pub use std::alloc::AllocError as NoMemory;
pub use texts::source;
