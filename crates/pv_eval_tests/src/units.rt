// A unit that is made by hand: `int i;`, and in it the expression `i = 42`.
ghost use Rattle.std.specs.Prelude.{◌<◌, ◌≤◌, length};
ghost use Rattle.pv_typed.specs.NodeTrees.{IsExpression};
ghost use Rattle.pv_typed.specs.Formed.{Grown};
ghost use Rattle.pv_typed.specs.Known.{AreKnown};
ghost use Rattle.pv_eval.specs.Runnable.{IsRunnable};
ghost use Rattle.pv_eval_tests.specs.Ready.{IsReady};

use pv_tree::NodeId;
use pv_typed::{Object, Typed, TypedUnit};
use pv_types::TypeId;
use std::process::Abort;

/// The object `i`, with static storage.
pub(crate) fn declared(rt: &impl Abort, unit: &mut TypedUnit, int: TypeId) -> u32
    requires { IsReady unit.old int }
    ensures ready { IsReady unit.new int }
    ensures number { result < length unit.new.objects }
{
    let name = unit.add_name(b"i").expect(rt, "no memory");
    assert!(rt; name < unit.names().len());
    let object = Object {
        name,
        t: int,
        line: 1,
        lasting: true,
        braced: false,
    };
    unit.add_object(object).expect(rt, "no memory")
}

/// The literal `"ab"`, whose number it gives.
pub(crate) fn literal(rt: &impl Abort, unit: &mut TypedUnit, int: TypeId) -> u32
    requires ready { IsReady unit.old int }
    ensures ready { IsReady unit.new int }
    ensures objects { length unit.old.objects ≤ length unit.new.objects }
    ensures number { result < length unit.new.literals }
{
    unit.add_literal(b"ab\0", 1, true).expect(rt, "no memory")
}

/// The expression `i = 42`.
pub(crate) fn assignment(rt: &impl Abort, unit: &mut TypedUnit, int: TypeId, i: u32) -> NodeId
    requires ready { IsReady unit.old int }
    requires object { i < length unit.old.objects }
    ensures ready { IsReady unit.new int }
    ensures node { IsExpression unit.new result }
    ensures grown { Grown unit.old unit.new }
{
    let place = unit
        .add_node(Typed::Object(i), int, 1, true)
        .expect(rt, "no memory");
    let value = unit
        .add_node(Typed::Constant(42), int, 1, true)
        .expect(rt, "no memory");
    unit.add_node(Typed::Assign(place, value), int, 1, true)
        .expect(rt, "no memory")
}

/// A unit whose parts are all there may be run.
pub(crate) fn may_run(unit: &TypedUnit)
    requires { AreKnown unit.now }
    ensures { IsRunnable unit.now }
{}
