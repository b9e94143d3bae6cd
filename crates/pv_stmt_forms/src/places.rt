//! What the tokens from a place are, as far as that takes no part of a statement to be read.
ghost use Rattle.std.specs.Prelude.{◌≤◌, length, drop};
ghost use Rattle.pv_expr_forms.specs.Reader.{after};
ghost use Rattle.pv_expr_forms.specs.Answers.{IsBehind};
ghost use Rattle.pv_stmt_forms.specs.Parts.{test_of};

use crate::forms::Sign;
use pv_expr_forms::peek;
use pv_token::Tokens;

/// The place behind a sign.
pub fn after(tokens: &Tokens, at: u32, sign: Sign) -> Option<u32>
    requires { at ≤ length tokens.now.tokens }
    ensures { IsBehind tokens.now.tokens result (after (test_of sign) (drop at tokens.now.tokens)) }
{
    match peek(tokens, at) {
        Some(token) if sign.is(token.kind) => Some(at + 1),
        _ => None,
    }
}
