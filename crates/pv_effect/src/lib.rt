//! Effective types (C17 6.5p6, 6.5p7): whether what is stored may be accessed through an lvalue of a type.
//!
//! Both calls take no memory. They ask for complete object types of at most 2^32 bytes.
#![tactic(auto)]

mod bytes;
mod declared;
mod kinds;
mod marks;

pub use declared::permits_declared;
pub use marks::permits_marks;
