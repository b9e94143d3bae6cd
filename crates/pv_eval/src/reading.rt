// Reads and writes as operations of a node (C17 6.3.2.1p2, 6.5.16).
ghost use Rattle.std.specs.Prelude.{◌≡◌, ◌≤◌, ◌∷◌, length, true, false, IfOk, OnOk};
ghost use Rattle.pv_typed.specs.Known.{AreKnown};
ghost use Rattle.pv_typed.specs.TypedTree.{type_of};
ghost use Rattle.pv_typed.specs.NodeTrees.{expression_at, IsExpression};
ghost use Rattle.pv_seq.specs.Sequencing.{with_access, rivals};
ghost use Rattle.pv_seq.specs.Rivals.{top, below};
ghost use Rattle.pv_world.specs.Worths.{pointer_of};
ghost use Rattle.pv_world.specs.Coming.{worth_of, DidAndTold};
ghost use Rattle.pv_eval.specs.TypeForms.{lvalue};
ghost use Rattle.pv_eval.specs.Sizes.{setting_of, IsComplete};
ghost use Rattle.pv_eval.specs.Within.{lvalue_in};
ghost use Rattle.pv_eval.specs.Runnable.{IsRunnable};
ghost use Rattle.pv_eval.specs.Accesses.{access_to};
ghost use Rattle.pv_eval.specs.Operations.{Reads, Writes, does};
ghost use Rattle.pv_eval.specs.Moments.{Acted, Stays, Noted};

use crate::accesses::{read_from, write_to};
use crate::failure::Failure;
use crate::moment::Moment;
use crate::types::{Complete, measured, shape};
use pv_seq::Journal;
use pv_tree::NodeId;
use pv_typed::TypedUnit;
use pv_types::TypeId;
use pv_watch::What;
use pv_world::{Failure as WorldFailure, Got, World, pointer_of, unfit};
use std::alloc::Global;

/// A read through a complete type, of a place whose name was made.
fn read_known(
    alloc: Global,
    unit: &TypedUnit,
    l: Complete,
    place: &Got,
    journal: &mut Journal,
    world: &mut World,
    told: &mut Vec<What>,
) -> Result<Got, WorldFailure>
    requires known { AreKnown unit.now }
    requires complete { IsComplete unit.now.known l }
    requires some { 1 ≤ length journal.old }
    ensures did { DidAndTold worth_of (does (setting_of unit.now) (Reads (lvalue_in unit.now l.t) (worth_of place.now) (rivals (top journal.old)))) result world.old world.new told.old told.new }
    ensures noted { OnOk result (journal.new ≡ with_access (access_to (lvalue_in unit.now l.t) (pointer_of (worth_of place.now)) false) (top journal.old) ∷ below journal.old) }
{
    if world.knows(place) {
        read_from(alloc, unit, l, pointer_of(place), journal, world, told)
    } else {
        Err(unfit(told))
    }
}

/// A read through an lvalue of the type.
fn read_place(
    alloc: Global,
    unit: &TypedUnit,
    t: TypeId,
    place: &Got,
    journal: &mut Journal,
    world: &mut World,
    told: &mut Vec<What>,
) -> Result<Got, WorldFailure>
    requires known { AreKnown unit.now }
    requires some { 1 ≤ length journal.old }
    ensures did { DidAndTold worth_of (does (setting_of unit.now) (Reads (lvalue_in unit.now t) (worth_of place.now) (rivals (top journal.old)))) result world.old world.new told.old told.new }
    ensures noted { OnOk result (journal.new ≡ with_access (access_to (lvalue_in unit.now t) (pointer_of (worth_of place.now)) false) (top journal.old) ∷ below journal.old) }
{
    match measured(unit.types(), t) {
        Some(l) => read_known(alloc, unit, l, place, journal, world, told),
        None => Err(unfit(told)),
    }
}

/// A write through a complete type.
fn write_known(
    alloc: Global,
    unit: &TypedUnit,
    l: Complete,
    place: &Got,
    v: Got,
    from: Option<u64>,
    journal: &mut Journal,
    world: &mut World,
    told: &mut Vec<What>,
) -> Result<Got, WorldFailure>
    requires known { AreKnown unit.now }
    requires complete { IsComplete unit.now.known l }
    requires some { 1 ≤ length journal.old }
    ensures did { DidAndTold worth_of (does (setting_of unit.now) (Writes (lvalue_in unit.now l.t) (worth_of place.now) (worth_of v) from (rivals (top journal.old)))) result world.old world.new told.old told.new }
    ensures noted { OnOk result (journal.new ≡ with_access (access_to (lvalue_in unit.now l.t) (pointer_of (worth_of place.now)) true) (top journal.old) ∷ below journal.old) }
{
    if world.can_write(shape(unit.types(), l.t), l.size, place, &v) {
        write_to(
            alloc,
            unit,
            l,
            pointer_of(place),
            v,
            from,
            journal,
            world,
            told,
        )
    } else {
        Err(unfit(told))
    }
}

/// A write through an lvalue of the type.
fn write_place(
    alloc: Global,
    unit: &TypedUnit,
    t: TypeId,
    place: &Got,
    v: Got,
    from: Option<u64>,
    journal: &mut Journal,
    world: &mut World,
    told: &mut Vec<What>,
) -> Result<Got, WorldFailure>
    requires known { AreKnown unit.now }
    requires some { 1 ≤ length journal.old }
    ensures did { DidAndTold worth_of (does (setting_of unit.now) (Writes (lvalue_in unit.now t) (worth_of place.now) (worth_of v) from (rivals (top journal.old)))) result world.old world.new told.old told.new }
    ensures noted { OnOk result (journal.new ≡ with_access (access_to (lvalue_in unit.now t) (pointer_of (worth_of place.now)) true) (top journal.old) ∷ below journal.old) }
{
    match measured(unit.types(), t) {
        Some(l) => write_known(alloc, unit, l, place, v, from, journal, world, told),
        None => Err(unfit(told)),
    }
}

impl Moment {
    /// The value of the lvalue of this type at the place (C17 6.3.2.1p2), which is the node's own read.
    pub fn read(
        &mut self,
        unit: &TypedUnit,
        line: u32,
        a: NodeId,
        place: &Got,
        journal: &mut Journal,
    ) -> Result<Got, Failure>
        requires runnable { IsRunnable unit.now }
        requires some { 1 ≤ length journal.old }
        requires there { IsExpression unit.now a }
        ensures acted { Acted unit.now line (λ b. Reads (lvalue b (type_of (expression_at unit.now a))) (worth_of place.now) (rivals (top journal.old))) result self.old self.new }
        ensures noted { Noted (λ b. access_to (lvalue b (type_of (expression_at unit.now a))) (pointer_of (worth_of place.now)) false) result journal.old journal.new unit.now self.old }
        ensures below { IfOk result (λ v. below journal.new ≡ below journal.old) }
        ensures some { IfOk result (λ v. 1 ≤ length journal.new) }
        ensures stays { Stays self.old self.new }
    {
        let t = unit.type_of(a);
        let before = self.world.pairs_made();
        let mut told = Vec::new(self.alloc);
        let world = &mut self.world;
        let answer = read_place(self.alloc, unit, t, place, journal, world, &mut told);
        self.close(line, before, &told, answer)
    }

    /// The value stored at the place (C17 6.5.16p3), which is the node's own write.
    pub fn write(
        &mut self,
        unit: &TypedUnit,
        line: u32,
        a: NodeId,
        place: &Got,
        v: Got,
        from: Option<u64>,
        journal: &mut Journal,
    ) -> Result<Got, Failure>
        requires runnable { IsRunnable unit.now }
        requires some { 1 ≤ length journal.old }
        requires there { IsExpression unit.now a }
        ensures acted { Acted unit.now line (λ b. Writes (lvalue b (type_of (expression_at unit.now a))) (worth_of place.now) (worth_of v) from (rivals (top journal.old))) result self.old self.new }
        ensures noted { Noted (λ b. access_to (lvalue b (type_of (expression_at unit.now a))) (pointer_of (worth_of place.now)) true) result journal.old journal.new unit.now self.old }
        ensures below { IfOk result (λ v. below journal.new ≡ below journal.old) }
        ensures some { IfOk result (λ v. 1 ≤ length journal.new) }
        ensures stays { Stays self.old self.new }
    {
        let t = unit.type_of(a);
        let before = self.world.pairs_made();
        let mut told = Vec::new(self.alloc);
        let world = &mut self.world;
        let answer = write_place(
            self.alloc, unit, t, place, v, from, journal, world, &mut told,
        );
        self.close(line, before, &told, answer)
    }
}
