//! What an expression is typed as, within the scope of an empty file.
ghost use Rattle.std.specs.Prelude.{◌≡◌, [], IsTrue};
ghost use Rattle.pv_tree.specs.Tables.{Is, is_expression};
ghost use Rattle.pv_typed.specs.Known.{AreKnown};
ghost use Rattle.pv_typed.specs.Formed.{no_tables};
ghost use Rattle.pv_check.specs.Open.{IsOpen};

use crate::readers::{lexed, read_expression};
use pv_check::{Scopes, expression};
use pv_num::BinOp;
use pv_token::Tokens;
use pv_tree::{NodeId, Unit};
use pv_typed::{Typed, TypedUnit};
use std::alloc::Global;
use std::process::Abort;

/// The scope of the file.
fn begin(rt: &impl Abort, s: &mut Scopes, into: &TypedUnit)
    requires known { AreKnown into.now }
    requires tables { into.now ≡ no_tables }
    requires scopes { s.old ≡ record { scopes = []; used = [] } }
    ensures { IsOpen into.now s.new }
{
    s.enter().expect(rt, "no memory");
}

/// Whether the expression is typed as a sum.
fn is_sum(u: &Unit, t: &Tokens, s: &mut Scopes, into: &mut TypedUnit, e: NodeId) -> bool
    requires node { Is u.now is_expression e }
    requires opened { IsOpen into.old s.old }
    ensures { IsTrue result → AreKnown into.new }
{
    match expression(s, u, t, e, into) {
        Ok(Some(n)) => matches!(into.node(n), Typed::Arithmetic(BinOp::Add, _, _)),
        Ok(None) => false,
        Err(_) => false,
    }
}

/// The same, within the scope of an empty file.
fn is_typed(rt: &impl Abort, alloc: Global, u: &Unit, t: &Tokens, into: &mut TypedUnit, e: NodeId)
    requires node { Is u.now is_expression e }
    requires known { AreKnown into.old }
    requires tables { into.old ≡ no_tables }
    ensures { AreKnown into.new }
{
    let mut s = Scopes::new(alloc);
    begin(rt, &mut s, into);
    assert!(rt; is_sum(u, t, &mut s, into, e));
}

/// `1 + 2` in a new unit.
pub(crate) fn types_a_sum(rt: &impl Abort, alloc: Global, into: &mut TypedUnit)
    requires known { AreKnown into.old }
    requires tables { into.old ≡ no_tables }
    ensures { AreKnown into.new }
{
    let t = lexed(rt, alloc, b"1 + 2");
    let mut trees = Unit::new(alloc);
    match read_expression(alloc, &t, &mut trees) {
        Some((n, _)) => is_typed(rt, alloc, &trees, &t, into, n),
        None => panic!(rt; "no expression"),
    }
}
