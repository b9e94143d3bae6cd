//! What a source is: a unit that has a typing, or why it is none.
ghost use Rattle.std.specs.Prelude.{◌^◌, ◌≤◌, List, ℕ, length, IfOk, IfErr};
ghost use Rattle.pv_lex.specs.Lexes.{Lexes};
ghost use Rattle.pv_lex.specs.Views.{LiesWithin};
ghost use Rattle.pv_tree.specs.Units.{SpellUnit};
ghost use Rattle.pv_unit.specs.Checking.{externals_in, IsNamed};
ghost use Rattle.pv_serve.specs.Loading.{reading_of, IsReady, IsWordOf, IsNameOf, HasParts};
ghost use Rattle.pv_serve.specs.Comes.{Comes, TokensCome, UnitComes, Reads};

use crate::NoMemory;
use crate::text::Text;
use pv_lex::{LexError, Tokens, tokens};
use pv_stmt::{SynError, unit};
use pv_tree::Unit;
use pv_typed::TypedUnit;
use pv_unit::CheckError;
use std::alloc::Global;

/// The most bytes that a source may have.
pub const SOURCE_LIMIT: usize = 1_048_576;

/// Why a source has no run.
#[derive(Drop)]
pub enum Refused {
    /// It is longer than 1048576 bytes (C17 5.2.4.1 leaves such limits to an implementation).
    Size,
    /// Its first lexical fault (C17 6.4), with its word where the fault is one of C17 that is not of the language that is
    /// run (C17 6.4.1, 6.4.4, 6.4.5).
    Lex { fault: LexError, word: Text },
    /// Its tokens are no translation unit (C17 6.9). So many external declarations, and no more,
    /// are spelled by the first of them.
    Syntax { whole: u32 },
    /// It has no typing (C17 6.5 to 6.9), for this reason, with the name where the reason is one that nothing defines
    /// (C17 6.9p5).
    Check { fault: CheckError, name: Text },
}

/// Types a source, or says why it has no typing. The only error is want of memory.
pub fn check(alloc: Global, source: &[u8]) -> Result<Result<TypedUnit, Refused>, NoMemory>
    ensures reads { IfOk result (λ r. Reads source.now (reading_of r)) }
    ensures parts { IfOk result (λ r. IfErr r (HasParts source.now)) }
    ensures ready { IfOk result IsReady }
{
    if source.len() > SOURCE_LIMIT {
        return Ok(Err(Refused::Size));
    }
    typed(alloc, source)
}

/// Types a source that is not too long.
pub(crate) fn typed(alloc: Global, source: &[u8]) -> Result<Result<TypedUnit, Refused>, NoMemory>
    requires { length source.now ≤ 2 ^ 20 }
    ensures comes { IfOk result (λ r. Comes source.now (reading_of r)) }
    ensures parts { IfOk result (λ r. IfErr r (HasParts source.now)) }
    ensures ready { IfOk result IsReady }
{
    match tokens(alloc, source) {
        Ok(tokens) => of_tokens(alloc, &tokens),
        Err(fault) => {
            let word = word_of(alloc, source, fault)?;
            Ok(Err(Refused::Lex { fault, word }))
        }
    }
}

// The word of a lexical fault. Want of memory is none.
fn word_of(alloc: Global, source: &[u8], fault: LexError) -> Result<Text, NoMemory>
    requires { LiesWithin source.now fault }
    ensures { IfOk result (IsWordOf source.now fault) }
{
    match fault {
        LexError::BadByte { .. } => Ok(Text::empty(alloc)),
        LexError::BadToken { .. } => Ok(Text::empty(alloc)),
        LexError::Profile { at, word } => {
            let start = at as usize;
            Text::copied(alloc, &source[start..start + word as usize])
        }
        LexError::NoMemory => Err(NoMemory),
    }
}

// Types the tokens of a source.
fn of_tokens(alloc: Global, tokens: &Tokens) -> Result<Result<TypedUnit, Refused>, NoMemory>
    ensures comes { IfOk result (λ r. TokensCome tokens.now (reading_of r)) }
    ensures parts { (source : List ℕ) → Lexes source tokens.now → IfOk result (λ r. IfErr r (HasParts source)) }
    ensures ready { IfOk result IsReady }
{
    match unit(alloc, tokens) {
        Ok(unit) => of_unit(alloc, tokens, &unit),
        Err(SynError::Syntax { whole }) => Ok(Err(Refused::Syntax { whole })),
        Err(SynError::NoMemory) => Err(NoMemory),
    }
}

// Types a translation unit.
fn of_unit(
    alloc: Global,
    tokens: &Tokens,
    unit: &Unit,
) -> Result<Result<TypedUnit, Refused>, NoMemory>
    requires { SpellUnit tokens.now.tokens (externals_in unit.now) }
    ensures comes { IfOk result (λ r. UnitComes tokens.now (externals_in unit.now) (reading_of r)) }
    ensures parts { (source : List ℕ) → Lexes source tokens.now → IfOk result (λ r. IfErr r (HasParts source)) }
    ensures ready { IfOk result IsReady }
{
    match pv_unit::check(alloc, unit, tokens) {
        Ok(typed) => Ok(Ok(typed)),
        Err(fault) => {
            let name = name_of(alloc, tokens, fault)?;
            Ok(Err(Refused::Check { fault, name }))
        }
    }
}

// The name that a unit lacks. Want of memory is no reason.
fn name_of(alloc: Global, tokens: &Tokens, fault: CheckError) -> Result<Text, NoMemory>
    requires { IsNamed tokens.now fault }
    ensures { IfOk result (IsNameOf tokens.now fault) }
{
    match fault {
        CheckError::Constraint { .. } => Ok(Text::empty(alloc)),
        CheckError::Unresolved { name } => Text::copied(alloc, tokens.name(name)),
        CheckError::NoMain => Ok(Text::empty(alloc)),
        CheckError::NoMemory => Err(NoMemory),
    }
}
