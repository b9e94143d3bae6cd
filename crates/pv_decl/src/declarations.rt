//! What the parts of a declaration are read from.

use crate::lists::ParameterLists;
use pv_expr_forms::Source;

/// What a reader is given, and the lists of parameters that are known of it.
#[derive(Drop)]
pub(crate) struct Declarations<'a, R> {
    pub(crate) source: Source<'a, R>,
    /// The lists of parameters that are known, so that they are not read once more.
    pub(crate) lists: &'a ParameterLists,
}
