//! What stands before an operand, and the type names in it.
ghost use Rattle.std.specs.Prelude.{nat_eq};
ghost use Rattle.pv_expr_forms.specs.Parts.{type_closed};
ghost use Rattle.pv_expr_forms.specs.Sources.{known_names, IsReady, tokens_from};
ghost use Rattle.pv_expr.specs.Openings.{OpensAt, IsTypeName};
ghost use Rattle.indexmap.specs.IndexSet.{contains};

use crate::nodes::{Opening, type_depth};
use pv_expr_forms::{Source, after_close, begins_type, is_open, prefix_of};
use pv_token::TokenKind;
use pv_tree::{NodeId, TypeReader, Unit};

/// The type name at a place, and the place behind it.
fn type_name<R: TypeReader>(source: &Source<'_, R>, at: u32, into: &Unit) -> Option<(NodeId, u32)>
    requires { IsReady R.types source.now into.now at }
    ensures { IsTypeName into.now source.now.tokens.now.tokens result ((known_names R.types source.now into.now).type_at (tokens_from source.now at)) }
{
    source.reader.type_name(at)
}

/// The type name at a place, of at most so much depth, and the place behind the `)` behind it.
#[inline(always)]
pub(crate) fn type_closed<R: TypeReader>(
    source: &Source<'_, R>,
    at: u32,
    below: u32,
    into: &Unit,
) -> Option<(NodeId, u32)>
    requires { IsReady R.types source.now into.now at }
    ensures { IsTypeName into.now source.now.tokens.now.tokens result (type_closed (known_names R.types source.now into.now) below (tokens_from source.now at)) }
{
    let Some((name, next)) = type_name(source, at, into) else {
        return None;
    };
    if type_depth(into, name) > below {
        return None;
    }
    match after_close(source.tokens, next) {
        Some(end) => Some((name, end)),
        None => None,
    }
}

/// What a token of a kind, which ends at a place, opens before an operand, and where the
/// operand begins.
pub(crate) fn opening_at<R: TypeReader>(
    source: &Source<'_, R>,
    kind: TokenKind,
    at: u32,
    below: u32,
    into: &Unit,
) -> Option<(Opening, u32)>
    requires { IsReady R.types source.now into.now at }
    ensures { let names = known_names R.types source.now into.now in
        OpensAt names (contains nat_eq source.now.typedefs.now) into.now source.now.tokens.now.tokens kind at below result }
{
    if is_open(kind) {
        if !begins_type(source.tokens, source.typedefs, at) {
            return Some((Opening::Paren, at));
        }
        let Some((name, next)) = type_closed(source, at, below, into) else {
            return None;
        };
        return Some((Opening::Cast(name), next));
    }
    match prefix_of(kind) {
        Some(op) => Some((Opening::Operator(op), at)),
        None => None,
    }
}
