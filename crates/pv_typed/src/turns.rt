// Plain expressions: how many turns they take, kept with each node as it is added.
ghost use Rattle.std.specs.Prelude.{◌≡◌, ◌<◌, ◌+◌, Some, length};
ghost use Rattle.pv_typed.specs.Plain.{with_own_turn, sum_of_turns, turns_within, plain_turns};
ghost use Rattle.pv_typed.specs.Children.{HasOperands};
ghost use Rattle.pv_typed.specs.Turns.{turns_in, turns_kept};
ghost use Rattle.pv_typed.specs.NodeTrees.{IsExpression, expression_at};

use crate::nodes::Typed;
use crate::rows::What;
use crate::unit::TypedUnit;
use pv_tree::NodeId;

/// The most turns of an expression that counts as plain.
const LIMIT: u32 = 1000;

/// A number of turns, where it is at most the limit.
fn capped(turns: u32) -> Option<u16>
    ensures { result ≡ turns_within (Some turns) }
{
    if turns <= LIMIT {
        Some(turns as u16)
    } else {
        None
    }
}

/// The turns of a node with one operand.
#[tactic(auto, using(crate::proofs::Turning::counted_none))]
fn one(counts: bool, a: Option<u16>) -> Option<u16>
    ensures { result ≡ turns_within (with_own_turn counts a) }
{
    let below = a? as u32;
    if counts {
        capped(below + 1)
    } else {
        capped(below)
    }
}

/// The turns of a node with two operands.
#[tactic(auto, using(crate::proofs::Turning::counted_none))]
fn two(counts: bool, a: Option<u16>, b: Option<u16>) -> Option<u16>
    ensures { result ≡ turns_within (with_own_turn counts (sum_of_turns a b)) }
{
    let left = a? as u32;
    let right = b? as u32;
    if counts {
        capped(left + right + 1)
    } else {
        capped(left + right)
    }
}

impl TypedUnit {
    /// How many turns an expression takes with all its operands, where it is plain and they are at most 1000.
    ///
    /// An expression is plain where each of its nodes has a form without side effect (C17 5.1.2.3p2) and without call,
    /// all of whose operands are evaluated.
    #[inline(always)]
    pub fn plain_turns(&self, n: NodeId) -> Option<u16>
        requires { IsExpression self.now n }
        ensures { result ≡ plain_turns (expression_at self.now n) }
    {
        match self.rows.at(n.0).what {
            What::Expression { plain, .. } => plain,
            What::Statement { .. } => unreachable!(),
        }
    }

    /// The turns that a row keeps.
    fn turns_at(&self, n: NodeId) -> Option<u16>
        requires { n.0 < length self.now.rows }
        ensures { result ≡ turns_kept self.now.rows n }
    {
        match self.rows.at(n.0).what {
            What::Expression { plain, .. } => plain,
            What::Statement { .. } => None,
        }
    }

    /// The turns of a node that is to be added, by those of its operands.
    #[inline(always)]
    pub(crate) fn turns_with(&self, x: Typed, counts: bool) -> Option<u16>
        requires { HasOperands self.now.rows self.now.lists (length self.now.rows) x }
        ensures { result ≡ turns_within (turns_in (turns_kept self.now.rows) counts x) }
    {
        match x {
            Typed::Constant(_) | Typed::LargeConstant(_) | Typed::Sizeof(_) => Some(1),
            Typed::Object(_) | Typed::String(_) => Some(1),
            Typed::Read(a) | Typed::ArrayPointer(a) | Typed::Convert(a) => {
                one(false, self.turns_at(a))
            }
            Typed::Indirection(a) => one(counts, self.turns_at(a)),
            Typed::Member(a, _) | Typed::Arrow(a, _) | Typed::Address(a) => {
                one(true, self.turns_at(a))
            }
            Typed::Unary(_, a) | Typed::Not(a) | Typed::Cast(a) => one(true, self.turns_at(a)),
            Typed::Subscript(a, b) => two(counts, self.turns_at(a), self.turns_at(b)),
            Typed::Arithmetic(_, a, b) | Typed::PointerSum(_, a, b) => {
                two(true, self.turns_at(a), self.turns_at(b))
            }
            Typed::PointerDifference(a, b)
            | Typed::PointerOrder(_, a, b)
            | Typed::PointerEquality(_, a, b) => two(true, self.turns_at(a), self.turns_at(b)),
            _ => None,
        }
    }
}
