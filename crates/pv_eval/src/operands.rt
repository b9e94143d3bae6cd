// Which operands a node has, and whether it takes a turn.
ghost use Rattle.std.specs.Prelude.{◌≡◌, ◌<◌, List, true, IfSome, IfNone};
ghost use Rattle.pv_typed.specs.TypedTree.{form_of};
ghost use Rattle.pv_typed.specs.Trees.{takes_turn};
ghost use Rattle.pv_typed.specs.NodeTrees.{expression_at, IsExpression};
ghost use Rattle.pv_eval.specs.States.{Setting, State};
ghost use Rattle.pv_seq.specs.Sequencing.{Access};
ghost use Rattle.pv_eval.specs.Steps.{Calling, takes};
ghost use Rattle.pv_eval.specs.Ahead.{first_operand_of, second_operand_of, takes_of};
ghost use Rattle.pv_eval.specs.Pieces.{BeginsWith};

use pv_tree::NodeId;
use pv_typed::{Typed, TypedUnit};

/// The first operand of a node.
pub(crate) fn first_operand(x: Typed) -> Option<NodeId>
    ensures { result ≡ first_operand_of x }
{
    match x {
        Typed::Subscript(a, _) => Some(a),
        Typed::Member(a, _) => Some(a),
        Typed::MemberOfValue(a, _) => Some(a),
        Typed::Arrow(a, _) => Some(a),
        Typed::Increment(_, a) => Some(a),
        Typed::Address(a) => Some(a),
        Typed::Indirection(a) => Some(a),
        Typed::Unary(_, a) => Some(a),
        Typed::Not(a) => Some(a),
        Typed::Cast(a) => Some(a),
        Typed::Arithmetic(_, a, _) => Some(a),
        Typed::PointerSum(_, a, _) => Some(a),
        Typed::PointerDifference(a, _) => Some(a),
        Typed::PointerOrder(_, a, _) => Some(a),
        Typed::PointerEquality(_, a, _) => Some(a),
        Typed::LogicalAnd(a, _) => Some(a),
        Typed::LogicalOr(a, _) => Some(a),
        Typed::Conditional(a, _, _) => Some(a),
        Typed::Assign(a, _) => Some(a),
        Typed::CompoundAssign(_, _, a, _) => Some(a),
        Typed::PointerAssign(_, a, _) => Some(a),
        Typed::Comma(a, _) => Some(a),
        Typed::Read(a) => Some(a),
        Typed::ArrayPointer(a) => Some(a),
        Typed::Convert(a) => Some(a),
        Typed::CallPointer(a, _) => Some(a),
        Typed::Constant(_) => None,
        Typed::LargeConstant(_) => None,
        Typed::Object(_) => None,
        Typed::Function(_) => None,
        Typed::String(_) => None,
        Typed::Call(_, _) => None,
        Typed::LibraryCall(_, _) => None,
        Typed::Sizeof(_) => None,
    }
}

/// The second operand of a node that has two from the start.
pub(crate) fn second_operand(x: Typed) -> Option<NodeId>
    ensures { result ≡ second_operand_of x }
{
    match x {
        Typed::Subscript(_, b) => Some(b),
        Typed::Arithmetic(_, _, b) => Some(b),
        Typed::PointerSum(_, _, b) => Some(b),
        Typed::PointerDifference(_, b) => Some(b),
        Typed::PointerOrder(_, _, b) => Some(b),
        Typed::PointerEquality(_, _, b) => Some(b),
        Typed::Assign(_, b) => Some(b),
        _ => None,
    }
}

/// The operand of a node that takes no turn of its own.
pub(crate) fn uncounted(unit: &TypedUnit, n: NodeId) -> Option<NodeId>
    requires { IsExpression unit.now n }
    ensures some { (b : Setting) (call : Calling) (fs : List Access) (s : State) → IfSome result (λ a. BeginsWith unit.now n a b call fs s) }
    ensures there { IfSome result (λ a. IsExpression unit.now a) }
    ensures less { IfSome result (λ a. a.0 < n.0) }
    ensures none { IfNone result (takes (takes_turn (expression_at unit.now n)) (form_of (expression_at unit.now n)) ≡ true) }
{
    let x = unit.node(n);
    if takes_turn(unit.counts(n), x) {
        None
    } else {
        first_operand(x)
    }
}

/// Whether a node takes a turn.
pub(crate) fn takes_turn(turn: bool, x: Typed) -> bool
    ensures { result ≡ takes_of turn x }
{
    match x {
        Typed::Read(_) => false,
        Typed::ArrayPointer(_) => false,
        Typed::Convert(_) => false,
        Typed::Subscript(_, _) => turn,
        Typed::Indirection(_) => turn,
        _ => true,
    }
}
