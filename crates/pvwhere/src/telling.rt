//! What is told of a source: nothing, or the lines of its refusal's place.
ghost use Rattle.std.specs.Prelude.{◌≡◌, ℕ, List, Some, option_map, IfOk};
ghost use Rattle.pv_serve.specs.Readings.{Bad};
ghost use Rattle.pv_serve.specs.Loading.{refusal_of, lexical_refusal, typing_refusal};
ghost use Rattle.pv_serve.specs.Comes.{Reads};
ghost use Rattle.pv_serve.specs.Replies.{Reply};
ghost use Rattle.pvwhere.specs.Answers.{Gets, word_of};
ghost use Rattle.pvwhere.specs.Answering.{told_by};

use crate::places::{first_bytes, place};
use pv_lex::LexError;
use pv_serve::{NoMemory, Refused, check};
use pv_unit::CheckError;
use pv_where::lines;
use std::alloc::Global;

/// The lines that tell where a source is refused, if it is. The only error is want of memory.
pub fn told(alloc: Global, name: &str, source: &[u8]) -> Result<Option<Vec<u8>>, NoMemory>
    ensures { IfOk result (λ r. Gets name.now source.now (told_by (option_map (λ v. v.items) r))) }
{
    match check(alloc, source)? {
        Ok(_unit) => Ok(None),
        Err(refused) => {
            let text = refusal_lines(alloc, name, source, &refused)?;
            Ok(Some(text))
        }
    }
}

// The lines that tell where a refusal is.
fn refusal_lines(
    alloc: Global,
    name: &str,
    source: &[u8],
    refused: &Refused,
) -> Result<Vec<u8>, NoMemory>
    requires { Reads source.now (Bad (refusal_of refused.now)) }
    ensures { IfOk result (λ v. Gets name.now source.now (told_by (Some v.items))) }
{
    let first = first_bytes(source);
    let at = place(alloc, first, refused)?;
    let text = lines(alloc, name.as_bytes(), first, at, word(refused).as_bytes())?;
    Ok(text)
}

// The word of a refusal.
fn word(refused: &Refused) -> &'static str
    ensures { result.now ≡ word_of (refusal_of refused.now) }
{
    match refused {
        Refused::Size => "size",
        Refused::Lex { fault, .. } => fault_word(*fault),
        Refused::Syntax { .. } => "syntax",
        Refused::Check { fault, .. } => unit_word(*fault),
    }
}

// The word of a lexical fault. Want of memory is none, and has the word of a source that is too long.
fn fault_word(fault: LexError) -> &'static str
    ensures { (word : List ℕ) → result.now ≡ word_of (lexical_refusal fault word) }
{
    match fault {
        LexError::BadByte { .. } => "byte",
        LexError::BadToken { .. } => "token",
        LexError::Profile { .. } => "profile",
        LexError::NoMemory => "size",
    }
}

// The word of what keeps a unit from having a typing, likewise.
fn unit_word(fault: CheckError) -> &'static str
    ensures { (name : List ℕ) → result.now ≡ word_of (typing_refusal fault name) }
{
    match fault {
        CheckError::Constraint { .. } => "constraint",
        CheckError::Unresolved { .. } => "unresolved",
        CheckError::NoMain => "main",
        CheckError::NoMemory => "size",
    }
}

/// A law: a source gets one answer.
pub fn one_answer()
    ensures some { (name source : List ℕ) → (reply : Reply) × Gets name source reply }
    ensures one { (name source : List ℕ) (a b : Reply) → Gets name source a → Gets name source b → a ≡ b }
{}
