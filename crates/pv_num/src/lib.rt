//! Integer kinds of the target, and C17's operators on them.
//!
//! Numbers are exact whole numbers, held in an `i128`: a member of any kind fits one. Nothing here takes memory.
#![tactic(auto)]

mod kinds;
mod operators;

pub use kinds::{IntKind, bits, convert, fits, is_character_kind, is_signed, promoted, width};
pub use operators::{ArithmeticFault, BinOp, UnOp, binary, unary};
