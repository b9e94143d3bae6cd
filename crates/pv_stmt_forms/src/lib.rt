//! The forms of statements (C17 6.8) and of external declarations (C17 6.9).
//!
//! Definitions say which statement or external declaration the first tokens of a list are, and
//! theorems that it is the one with the longest run that the grammar has there. The functions are
//! what reading tokens into nodes stands on: they call no reader.
#![tactic(auto)]

mod forms;
mod nodes;
mod places;
mod regions;
mod typedefs;

pub use forms::{First, ForHead, LabelWord, Sign, StatementForm, Within, form_of, label_word};
pub use nodes::{block_of, for_node, found_before, found_statement, is_declaration, labelled_of};
pub use places::after;
pub use pv_expr_forms::{begins_type, peek};
pub use regions::region_end;
pub use typedefs::{add_all, add_name, has_typedef};
