//! String literals (C17 6.4.5).
ghost use Rattle.std.specs.Prelude.{◌≡◌, ◌<◌, ◌+◌, ◌^◌, [], Some, IfOk, OnOk, length, slice_index_or};
ghost use Rattle.pv_types.specs.Ty.{IntTy, ArrayOf};
ghost use Rattle.pv_num.specs.declared.kinds.IntKind.TheVariants.{Char};
ghost use Rattle.pv_typed.specs.TypedTree.{String};
ghost use Rattle.pv_typed.specs.NodeTrees.{expression_at, IsExpression};
ghost use Rattle.pv_typed.specs.Known.{AreKnown};
ghost use Rattle.pv_check.specs.Open.{state_of, IsOpen, Goes, Texts};
ghost use Rattle.pv_check.specs.Arms.{after_node, OpenIf};
ghost use Rattle.pv_check.specs.Kept.{Kept};
ghost use Rattle.pv_check.specs.StringLiterals.{bytes_of_text, text_of};
ghost use Rattle.pv_check.specs.Values.{source_node};

use crate::scopes::Scopes;
use crate::values::{add, intern};
use pv_num::IntKind;
use pv_token::Tokens;
use pv_tree::NodeId;
use pv_typed::{Typed, TypedUnit};
use pv_types::{NoMemory, Term};
use std::alloc::Global;

/// The array that a literal of so many bytes is.
fn literal_node(into: &mut TypedUnit, line: u32, l: u32, len: u64) -> Result<NodeId, NoMemory>
    requires known { AreKnown into.old }
    requires literal { l < length into.old.literals }
    requires some { 0 < len }
    requires few { len < 2 ^ 32 }
    ensures node { IfOk result (λ r. IsExpression into.new r) }
    ensures typed { IfOk result (λ r. expression_at into.new r ≡ source_node line (ArrayOf (IntTy Char) (Some len)) (String l)) }
    ensures kept { OnOk result (Kept into.old into.new) }
{
    let Ok(char) = intern(into, Term::Int(IntKind::Char)) else {
        return Err(NoMemory);
    };
    let Ok(t) = intern(into, Term::Array(char, Some(len))) else {
        return Err(NoMemory);
    };
    let Ok(r) = add(into, Typed::String(l), t, line, true) else {
        return Err(NoMemory);
    };
    Ok(r)
}

/// A string literal with these bytes.
fn literal(
    s: &Scopes,
    hidden: bool,
    line: u32,
    bytes: &[u8],
    into: &mut TypedUnit,
) -> Result<Option<NodeId>, NoMemory>
    requires open { IsOpen into.old s.now }
    requires some { 0 < length bytes.now }
    requires few { length bytes.now < 2 ^ 32 }
    ensures open { IfOk result (λ r. OpenIf into.new s.now r) }
    ensures typed { (texts : Texts) → IfOk result (λ r. after_node texts hidden s.now into.new r ≡ Some (text_of line bytes.now (state_of texts hidden s.now into.old))) }
    ensures goes { OnOk result (Goes into.old into.new) }
{
    let l = into.add_literal(bytes, line, !hidden)?;
    let r = literal_node(into, line, l, bytes.len() as u64)?;
    Ok(Some(r))
}

/// The bytes of a literal of the source, none where there is no such literal.
fn piece(t: &Tokens, n: u64) -> &[u8]
    ensures { result.now ≡ slice_index_or t.now.texts n [] }
{
    if n < t.texts_len() as u64 {
        t.text(n as u32)
    } else {
        &[]
    }
}

/// The bytes of literals in a row, with a zero behind them (C17 6.4.5p5, p6).
pub fn bytes_of_text(alloc: Global, t: &Tokens, first: u32, more: u32) -> Result<Vec<u8>, NoMemory>
    ensures { IfOk result (λ v. v.items ≡ bytes_of_text t.now.texts first more) }
{
    let mut bytes = Vec::from_slice(alloc, piece(t, first as u64))?;
    for i in 0..more {
        bytes.extend_from_slice(piece(t, first as u64 + i as u64 + 1))?;
    }
    bytes.push(0)?;
    Ok(bytes)
}

/// String literals in a row (C17 6.4.5).
pub(crate) fn text(
    s: &Scopes,
    hidden: bool,
    t: &Tokens,
    line: u32,
    first: u32,
    more: u32,
    into: &mut TypedUnit,
) -> Result<Option<NodeId>, NoMemory>
    requires open { IsOpen into.old s.now }
    ensures open { IfOk result (λ r. OpenIf into.new s.now r) }
    ensures typed { IfOk result (λ r. after_node t.now.texts hidden s.now into.new r ≡ Some (text_of line (bytes_of_text t.now.texts first more) (state_of t.now.texts hidden s.now into.old))) }
    ensures goes { OnOk result (Goes into.old into.new) }
{
    let Ok(bytes) = bytes_of_text(s.allocator(), t, first, more) else {
        return Err(NoMemory);
    };
    if bytes.is_empty() || bytes.len() >= 0x1_0000_0000 {
        return Err(NoMemory);
    }
    let Ok(r) = literal(s, hidden, line, &bytes, into) else {
        return Err(NoMemory);
    };
    Ok(r)
}
