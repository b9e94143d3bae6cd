//! What a reader is given.

use indexmap::IndexSet;
use pv_token::Tokens;

/// The tokens that expressions, declarations and statements are read from, and what is known of the
/// names and type names among them.
#[derive(Drop)]
pub struct Source<'a, R> {
    pub tokens: &'a Tokens,
    /// The numbers of the typedef names (C17 6.7.8p3).
    pub typedefs: &'a IndexSet<u32>,
    /// What has the type names (C17 6.7.7) that stand within expressions.
    pub reader: &'a R,
}
