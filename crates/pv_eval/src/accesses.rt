// Reads and writes through lvalues (C17 6.3.2.1p2, 6.5.16), which are accesses of the node's own.
ghost use Rattle.std.specs.Prelude.{◌≡◌, ◌≤◌, ◌<◌, ◌++◌, List, ◌∷◌, length, true, false, Result, Err, IfOk, IfErr, OnOk, Some};
ghost use Rattle.pv_inst.specs.declared.values.Tried.{Tried};
ghost use Rattle.pv_inst.specs.declared.values.Miss.{Miss};
ghost use Rattle.pv_inst.specs.Table.{IsMadeIn};
ghost use Rattle.pv_inst.specs.Use.{after_use};
ghost use Rattle.pv_object.specs.Reaching.{IsReach};
ghost use Rattle.pv_types.specs.Known.{tree};
ghost use Rattle.pv_typed.specs.Known.{AreKnown};
ghost use Rattle.pv_seq.specs.Sequencing.{conflicts, with_access, rivals};
ghost use Rattle.pv_seq.specs.SequencingParts.{access_of};
ghost use Rattle.pv_seq.specs.Rivals.{top, below};
ghost use Rattle.pv_world.specs.Worlds.{World as WorldView};
ghost use Rattle.pv_world.specs.Worths.{undefined_behaviour};
ghost use Rattle.pv_world.specs.Telling.{telling, blame_of, fault_of, verdict_of};
ghost use Rattle.pv_world.specs.Accesses.{is_inexact};
ghost use Rattle.pv_world.specs.Preconditions.{IsStored};
ghost use Rattle.pv_world.specs.Coming.{Came, Faulted, coming_of, worth_of, IsMadeWorth, DidAndTold};
ghost use Rattle.pv_watch.specs.declared.event.What.{What as Told};
ghost use Rattle.pv_eval.specs.TypeForms.{lvalue, shape_of};
ghost use Rattle.pv_eval.specs.Sizes.{setting_of, IsComplete};
ghost use Rattle.pv_eval.specs.Accesses.{reads_permitted, reads_at, writes_alone, writes_permitted, writes_at, writes_to};
ghost use Rattle.pv_eval.specs.AccessParts.{reads_from};

use crate::permission::permits;
use crate::types::{Complete, align_of, number, shape};
use pv_fault::{Clause, Fault, Reason, Verdict};
use pv_object::{Pointer, Reach};
use pv_seq::{Journal, SeqStop};
use pv_typed::TypedUnit;
use pv_watch::What;
use pv_world::{Blame, Cause, Failure as WorldFailure, Got, World, fail};
use std::alloc::Global;

/// The run ends by this paragraph, for this reason, and blames a pointer.
fn blamed(told: &mut Vec<What>, clause: Clause, reason: Reason, blame: Blame) -> WorldFailure
    ensures { Faulted result (undefined_behaviour clause reason) told.new.items (told.old.items ++ fault_of (Some blame) (verdict_of (undefined_behaviour clause reason))) }
{
    fail(
        told,
        Cause::Ends(Verdict::Undefined(Fault { clause, reason })),
        Some(blame),
    )
}

/// The access of a node's own is noted, unless it is unsequenced relative to one that it conflicts with (C17 6.5p2).
#[inline(always)]
#[tactic(auto, using(crate::proofs::Rivals::some_conflict, crate::proofs::Rivals::no_conflict))]
fn note(journal: &mut Journal, at: u64, n: u64, write: bool) -> Result<bool, WorldFailure>
    requires { 1 ≤ length journal.old }
    ensures rivals { IfOk result (λ t. t ≡ conflicts (access_of at n write) (rivals (top journal.old))) }
    ensures noted { IfOk result (λ t. t ≡ false → journal.new ≡ with_access (access_of at n write) (top journal.old) ∷ below journal.old) }
    ensures memory { IfErr result (λ e. e ≡ WorldFailure.NoMemory) }
{
    match journal.access(at, n, write) {
        Ok(()) => Ok(false),
        Err(SeqStop::Conflict { .. }) => Ok(true),
        Err(SeqStop::NoMemory) => Err(WorldFailure::NoMemory),
    }
}

/// The value of an lvalue whose bytes may be read: its rivals, then what the bytes are worth.
fn read_permitted(
    unit: &TypedUnit,
    l: Complete,
    p: Pointer,
    at: &Reach,
    blame: Blame,
    journal: &mut Journal,
    world: &mut World,
    told: &mut Vec<What>,
) -> Result<Got, WorldFailure>
    requires complete { IsComplete unit.now.known l }
    requires made { IsMadeIn world.old.memory.table p.prov }
    requires reached { IsReach world.old.memory.table at.now l.size }
    requires some { 1 ≤ length journal.old }
    ensures did { (w0 : WorldView) (x : Result Tried Miss) (es us : List Told) → world.old.memory.table ≡ after_use w0.memory.table p.prov x → blame ≡ blame_of w0.memory p.prov → told.old.items ≡ es ++ us
        → Came worth_of result world.new told.new.items (coming_of es w0 (reads_permitted (lvalue (setting_of unit.now) (tree unit.now.known l.t.0)) p (rivals (top journal.old)) at.now world.old (telling us))) }
    ensures noted { OnOk result (journal.new ≡ with_access (access_of p.address l.size false) (top journal.old) ∷ below journal.old) }
{
    match note(journal, p.address, l.size, false) {
        Ok(true) => Err(blamed(told, Clause::Sequencing, Reason::Unsequenced, blame)),
        Ok(false) => world.value(at, l.size, shape(unit.types(), l.t), p, blame, told),
        Err(e) => Err(e),
    }
}

/// The value of an lvalue whose bytes were reached: the effective type comes first.
fn read_reached(
    alloc: Global,
    unit: &TypedUnit,
    l: Complete,
    p: Pointer,
    at: &Reach,
    blame: Blame,
    journal: &mut Journal,
    world: &mut World,
    told: &mut Vec<What>,
) -> Result<Got, WorldFailure>
    requires known { AreKnown unit.now }
    requires complete { IsComplete unit.now.known l }
    requires made { IsMadeIn world.old.memory.table p.prov }
    requires reached { IsReach world.old.memory.table at.now l.size }
    requires some { 1 ≤ length journal.old }
    ensures did { (w0 : WorldView) (x : Result Tried Miss) (es us : List Told) → world.old.memory.table ≡ after_use w0.memory.table p.prov x → blame ≡ blame_of w0.memory p.prov → told.old.items ≡ es ++ us
        → Came worth_of result world.new told.new.items (coming_of es w0 (reads_at (setting_of unit.now) (lvalue (setting_of unit.now) (tree unit.now.known l.t.0)) p (rivals (top journal.old)) at.now world.old (telling us))) }
    ensures noted { OnOk result (journal.new ≡ with_access (access_of p.address l.size false) (top journal.old) ∷ below journal.old) }
{
    match permits(alloc, unit, world, at, l, false) {
        Ok(true) => read_permitted(unit, l, p, at, blame, journal, world, told),
        Ok(false) => Err(blamed(told, Clause::EffectiveTypes, Reason::WrongType, blame)),
        Err(_) => Err(WorldFailure::NoMemory),
    }
}

/// The value of the lvalue of this type that the pointer designates (C17 6.3.2.1p2).
pub(crate) fn read_from(
    alloc: Global,
    unit: &TypedUnit,
    l: Complete,
    p: Pointer,
    journal: &mut Journal,
    world: &mut World,
    told: &mut Vec<What>,
) -> Result<Got, WorldFailure>
    requires known { AreKnown unit.now }
    requires complete { IsComplete unit.now.known l }
    requires made { IsMadeIn world.old.memory.table p.prov }
    requires some { 1 ≤ length journal.old }
    ensures did { DidAndTold worth_of (reads_from (setting_of unit.now) (lvalue (setting_of unit.now) (tree unit.now.known l.t.0)) p (rivals (top journal.old))) result world.old world.new told.old told.new }
    ensures noted { OnOk result (journal.new ≡ with_access (access_of p.address l.size false) (top journal.old) ∷ below journal.old) }
{
    let align = align_of(unit.types(), l.t);
    let blame = world.blame(p);
    match world.reach(p, l.size, align, false, told) {
        Ok(at) => read_reached(alloc, unit, l, p, &at, blame, journal, world, told),
        Err(e) => Err(e),
    }
}

/// Whether two ranges of so many bytes share a byte and are not the same (C17 6.5.16.1p3).
fn inexact(from: Option<u64>, address: u64, n: u64) -> bool
    ensures { result ≡ is_inexact from address n }
{
    match from {
        None => false,
        Some(b) => {
            if b <= address {
                b != address && address - b < n
            } else {
                b - address < n
            }
        }
    }
}

/// The value is stored, where no rival is: unless it was read from bytes that overlap.
fn write_alone(
    unit: &TypedUnit,
    l: Complete,
    p: Pointer,
    v: Got,
    from: Option<u64>,
    at: &Reach,
    blame: Blame,
    world: &mut World,
    told: &mut Vec<What>,
) -> Result<Got, WorldFailure>
    requires complete { IsComplete unit.now.known l }
    requires value { IsStored (shape_of (tree unit.now.known l.t.0)) l.size (worth_of v) }
    requires value_made { IsMadeWorth world.old.memory.table (worth_of v) }
    requires reached { IsReach world.old.memory.table at.now l.size }
    ensures { (w0 : WorldView) (es us : List Told) → blame ≡ blame_of w0.memory p.prov → told.old.items ≡ es ++ us → Came worth_of result world.new told.new.items
        (coming_of es w0 (writes_alone (lvalue (setting_of unit.now) (tree unit.now.known l.t.0)) p (worth_of v) from at.now world.old (telling us))) }
{
    if inexact(from, p.address, l.size) {
        Err(blamed(told, Clause::OverlappingAssignment, Reason::Overlap, blame))
    } else {
        let types = unit.types();
        world.store(at, l.size, number(types, l.t), shape(types, l.t), &v);
        Ok(v)
    }
}

/// The value is stored, where that is permitted: the rivals come first.
fn write_permitted(
    unit: &TypedUnit,
    l: Complete,
    p: Pointer,
    v: Got,
    from: Option<u64>,
    at: &Reach,
    blame: Blame,
    journal: &mut Journal,
    world: &mut World,
    told: &mut Vec<What>,
) -> Result<Got, WorldFailure>
    requires complete { IsComplete unit.now.known l }
    requires value { IsStored (shape_of (tree unit.now.known l.t.0)) l.size (worth_of v) }
    requires value_made { IsMadeWorth world.old.memory.table (worth_of v) }
    requires reached { IsReach world.old.memory.table at.now l.size }
    requires some { 1 ≤ length journal.old }
    ensures did { (w0 : WorldView) (es us : List Told) → blame ≡ blame_of w0.memory p.prov → told.old.items ≡ es ++ us → Came worth_of result world.new told.new.items
        (coming_of es w0 (writes_permitted (lvalue (setting_of unit.now) (tree unit.now.known l.t.0)) p (worth_of v) from (rivals (top journal.old)) at.now world.old (telling us))) }
    ensures noted { OnOk result (journal.new ≡ with_access (access_of p.address l.size true) (top journal.old) ∷ below journal.old) }
{
    match note(journal, p.address, l.size, true) {
        Ok(true) => Err(blamed(told, Clause::Sequencing, Reason::Unsequenced, blame)),
        Ok(false) => write_alone(unit, l, p, v, from, at, blame, world, told),
        Err(e) => Err(e),
    }
}

/// The value is stored where the bytes were reached: the effective type comes first.
fn write_reached(
    alloc: Global,
    unit: &TypedUnit,
    l: Complete,
    p: Pointer,
    v: Got,
    from: Option<u64>,
    at: &Reach,
    blame: Blame,
    journal: &mut Journal,
    world: &mut World,
    told: &mut Vec<What>,
) -> Result<Got, WorldFailure>
    requires known { AreKnown unit.now }
    requires complete { IsComplete unit.now.known l }
    requires value { IsStored (shape_of (tree unit.now.known l.t.0)) l.size (worth_of v) }
    requires value_made { IsMadeWorth world.old.memory.table (worth_of v) }
    requires reached { IsReach world.old.memory.table at.now l.size }
    requires some { 1 ≤ length journal.old }
    ensures did { (w0 : WorldView) (es us : List Told) → blame ≡ blame_of w0.memory p.prov → told.old.items ≡ es ++ us → Came worth_of result world.new told.new.items
        (coming_of es w0 (writes_at (setting_of unit.now) (lvalue (setting_of unit.now) (tree unit.now.known l.t.0)) p (worth_of v) from (rivals (top journal.old)) at.now world.old (telling us))) }
    ensures noted { OnOk result (journal.new ≡ with_access (access_of p.address l.size true) (top journal.old) ∷ below journal.old) }
{
    match permits(alloc, unit, world, at, l, true) {
        Ok(true) => write_permitted(unit, l, p, v, from, at, blame, journal, world, told),
        Ok(false) => Err(blamed(told, Clause::EffectiveTypes, Reason::WrongType, blame)),
        Err(_) => Err(WorldFailure::NoMemory),
    }
}

/// The value is stored where the pointer points (C17 6.5.16p3).
pub(crate) fn write_to(
    alloc: Global,
    unit: &TypedUnit,
    l: Complete,
    p: Pointer,
    v: Got,
    from: Option<u64>,
    journal: &mut Journal,
    world: &mut World,
    told: &mut Vec<What>,
) -> Result<Got, WorldFailure>
    requires known { AreKnown unit.now }
    requires complete { IsComplete unit.now.known l }
    requires value { IsStored (shape_of (tree unit.now.known l.t.0)) l.size (worth_of v) }
    requires value_made { IsMadeWorth world.old.memory.table (worth_of v) }
    requires made { IsMadeIn world.old.memory.table p.prov }
    requires some { 1 ≤ length journal.old }
    ensures did { DidAndTold worth_of (λ w. writes_to (setting_of unit.now) (lvalue (setting_of unit.now) (tree unit.now.known l.t.0)) p from (rivals (top journal.old)) w (worth_of v)) result world.old world.new told.old told.new }
    ensures noted { OnOk result (journal.new ≡ with_access (access_of p.address l.size true) (top journal.old) ∷ below journal.old) }
{
    let align = align_of(unit.types(), l.t);
    let blame = world.blame(p);
    match world.reach(p, l.size, align, true, told) {
        Ok(at) => write_reached(alloc, unit, l, p, v, from, &at, blame, journal, world, told),
        Err(e) => Err(e),
    }
}
