//! The forms of declarations: what is asked for at a place of the grammar, what the tokens from a
//! place are, what is read of them, on lists, and the trees made of parts that are read.
//!
//! Its `specs` say how declarations are read from the left, on lists of tokens; its `proofs`, that
//! this gives, of the trees that spell tokens from a place, the one with the longest run.
#![tactic(auto)]

mod forms;
mod nodes;
mod pieces;
mod tokens;

pub use forms::{CompositeWord, DEPTH_LIMIT, Form, Opening, Part, Sign, TagWord};
pub use nodes::{found_declaration, found_declarator, found_initializer, may_go_on};
pub use pieces::{
    array_of, braces_of, composite, declaration_of, enumeration, function_node, function_of,
    member_of, named, parameter_of, parenthesized, plain, pointed, tag_alone, type_name_of,
    type_word_of,
};
pub use tokens::{
    after, comma_at, consts_in_row, ellipsis_at, name_of, opening_of, opens_block,
    opens_parameters, tag_at, tag_word,
};
