//! Typing of declarations, initializers, statements, functions and units (C17 6.7, 6.8, 6.9).
#![tactic(auto)]

mod adding;
mod blocks;
mod checking;
mod declarators;
mod declaring;
mod ending;
mod entities;
mod function_names;
mod functions;
mod giving;
mod heads;
mod initializers;
mod known_names;
mod labels;
mod library_names;
mod library_types;
mod mains;
mod objects;
mod outside;
mod parts;
mod plain;
mod prototypes;
mod resolving;
mod rows;
mod shapes;
mod starting;
mod stmts;

pub use checking::{CheckError, check, one_answer};
