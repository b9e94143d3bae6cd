// Calls of the library (C17 7): what happened within one is told, and what it prints is kept.
ghost use Rattle.std.specs.Prelude.{◌≡◌, ◌≢◌, ◌<◌, ◌+◌, ◌++◌, ℕ, List, [], ◌∷◌, length, map, true, false, All, IfOk, OnOk, OnErr, Ok, Err, None, codes};
ghost use Rattle.pv_script.specs.Names.{name_at as text_of};
ghost use Rattle.pv_types.specs.Ty.{IntTy};
ghost use Rattle.pv_types.specs.Known.{tree};
ghost use Rattle.pv_typed.specs.Nodes.{arguments_in};
ghost use Rattle.pv_typed.specs.Children.{HasKinds};
ghost use Rattle.pv_typed.specs.Known.{Each};
ghost use Rattle.pv_typed.specs.Tables.{nodes};
ghost use Rattle.pv_typed.specs.NodeTrees.{list_at, IsExpression};
ghost use Rattle.pv_object.specs.Answers.{IsMadeValue};
ghost use Rattle.pv_libc.specs.Steps.{with_notes};
ghost use Rattle.pv_libc.specs.Answers.{OrNoMemory, behind};
ghost use Rattle.pv_libc.specs.Calls.{reply_to_call, output};
ghost use Rattle.pv_libc.specs.Makings.{AreLive, IsLiveIfMade, UnlessNoMemory as UnlessSpent};
ghost use Rattle.pv_world.specs.Worlds.{World as WorldView, Worth};
ghost use Rattle.pv_world.specs.Worths.{value_of};
ghost use Rattle.pv_world.specs.Coming.{worth_of, DidAndTold, Tells};
ghost use Rattle.pv_eval.specs.States.{Setting, Res};
ghost use Rattle.pv_eval.specs.Arguments.{argument_shape, shape_to};
ghost use Rattle.pv_eval.specs.Frames.{asked_with};
ghost use Rattle.pv_eval.specs.Library.{noted_as, blame_in, asks};
ghost use Rattle.pv_eval.specs.LibraryParts.{all_noted, knows_arguments};
ghost use Rattle.pv_eval.specs.Moments.{come_to, Acted, Stays, Came, state_of};
ghost use Rattle.pv_eval.specs.Texts.{Wrote, Closed, with_text};
ghost use Rattle.pv_eval.specs.Runnable.{IsRunnable};
ghost use Rattle.pv_eval.specs.Operations.{Asks, does};
ghost use Rattle.pv_eval.specs.declared.marked.Marked.{Marked as Event};

use crate::failure::Failure;
use crate::moment::Moment;
use crate::types::layer;
use pv_libc::{Arg, Note, Reply, Shape, call};
use pv_library::Library;
use pv_num::{IntKind, is_character_kind};
use pv_object::{Memory, Stop, Value};
use pv_prov::NoMemory;
use pv_script::Names;
use pv_tree::{ListId, NodeId};
use pv_typed::TypedUnit;
use pv_types::{Term, TypeId, Types};
use pv_watch::What;
use pv_world::{
    Blame, Cause, Failure as WorldFailure, Got, World, stopped, tell, tell_made, tell_used, unfit,
};
use std::alloc::Global;

/// How `printf` looks at a pointer to an integer type of this kind.
fn shape_to_int(kind: IntKind) -> Shape
    ensures { result ≡ shape_to (IntTy kind) }
{
    if is_character_kind(kind) {
        Shape::Text
    } else {
        Shape::Other
    }
}

/// How `printf` looks at a pointer to this type (C17 7.21.6.1p8).
fn shape_to(types: &Types, t: TypeId) -> Shape
    ensures { result ≡ shape_to (tree types.now t.0) }
{
    let mut at = t;
    'layers: loop {
        match layer(types, at) {
            Term::Void => return Shape::Void,
            Term::Const(inner) => at = inner,
            Term::Int(kind) => return shape_to_int(kind),
            _ => return Shape::Other,
        }
    }
}

/// How `printf` looks at an argument of this type.
fn argument_shape(types: &Types, t: TypeId) -> Shape
    ensures { result ≡ argument_shape (tree types.now t.0) }
{
    let mut at = t;
    'layers: loop {
        match layer(types, at) {
            Term::Int(kind) => return Shape::Int(kind),
            Term::Pointer(to) => return shape_to(types, to),
            Term::Const(inner) => at = inner,
            _ => return Shape::Other,
        }
    }
}

/// The scalar that a value is.
fn value_of(v: &Got) -> Value
    ensures { result ≡ value_of (worth_of v.now) }
{
    match v {
        Got::Scalar(v) => *v,
        Got::Nothing | Got::Missing | Got::Whole(_, _) => Value::Unset,
    }
}

/// The arguments of a call, as the library looks at them.
fn arguments(
    alloc: Global,
    unit: &TypedUnit,
    children: &[NodeId],
    got: &[Got],
) -> Result<Vec<Arg>, NoMemory>
    requires { Each (IsExpression unit.now) children.now }
    ensures { IfOk result (λ a. a.items ≡ asked_with (arguments_in (nodes unit.now) children.now) (map worth_of got.now)) }
{
    let mut args = Vec::new(alloc);
    let many = children.len().min(got.len());
    for i in 0..many {
        let t = unit.type_of(children[i]);
        args.push(Arg {
            value: value_of(&got[i]),
            shape: argument_shape(unit.types(), t),
        })?;
    }
    Ok(args)
}

/// What happened within a call is told.
fn tell_note(told: &mut Vec<What>, memory: &Memory, note: Note) -> Result<(), NoMemory>
    requires { IsLiveIfMade memory.now.table.instances note }
    ensures { OnOk result (Tells told.old told.new (noted_as memory.now.table note)) }
{
    match note {
        Note::Made(i) => tell_made(told, memory, i),
        Note::Ended { inst } => tell(told, What::Ended { inst }),
        Note::Exposed(inst) => tell(told, What::Exposed { inst }),
        Note::Used { tried, test } => tell_used(told, test, tried),
        Note::Stopped { .. } => Ok(()),
    }
}

/// The same of all that happened, in order.
fn tell_notes(told: &mut Vec<What>, memory: &Memory, notes: &[Note]) -> Result<(), NoMemory>
    requires { AreLive memory.now notes.now }
    ensures { OnOk result (Tells told.old told.new (all_noted memory.now.table notes.now)) }
{
    for i in 0..notes.len() {
        tell_note(told, memory, notes[i])?;
    }
    Ok(())
}

/// Whom a note blames, if it says why a call stops.
fn blame_of(note: Note) -> Option<Blame>
    ensures { result ≡ blame_in (note ∷ []) }
{
    match note {
        Note::Stopped { low, high, pair } => Some(Blame { low, high, pair }),
        _ => None,
    }
}

/// Whom the stop of a call blames.
fn blame_in(notes: &[Note]) -> Option<Blame>
    ensures { result ≡ blame_in notes.now }
{
    for i in 0..notes.len() {
        if let Some(blame) = blame_of(notes[i]) {
            return Some(blame);
        }
    }
    None
}

/// What a call comes to, after what was told of it.
fn replied(
    told: &mut Vec<What>,
    reply: Result<Reply, Stop>,
    blame: Option<Blame>,
) -> Result<Got, WorldFailure>
    ensures { (w : WorldView) → DidAndTold worth_of (come_to blame reply) result w w told.old told.new }
{
    match reply {
        Ok(Reply::Nothing) => Ok(Got::Nothing),
        Ok(Reply::Value(v)) => Ok(Got::Scalar(v)),
        Ok(Reply::Exit(n)) => Err(WorldFailure::Stop(Cause::Exits(n))),
        Ok(Reply::Abort) => Err(WorldFailure::Stop(Cause::Aborts)),
        Ok(Reply::Placement(e)) => Err(WorldFailure::Stop(Cause::Refused(1, e))),
        Err(stop) => Err(stopped(told, stop, blame)),
    }
}

/// A call of the library, on the memory of the world.
fn call_in(
    world: &mut World,
    f: Library,
    args: &[Arg],
    names: &Names,
    text: &mut Vec<u8>,
    notes: &mut Vec<Note>,
) -> Result<Reply, Stop>
    requires named { 1 < length names.now }
    requires heap { text_of names.now 1 ≡ codes "@heap" }
    requires made { All (λ a. IsMadeValue world.old.memory.table a.value) args.now }
    ensures answer { OrNoMemory result (with_notes world.new.memory notes.new.items) (behind notes.old.items (reply_to_call f args.now world.old.memory)) }
    ensures text { OnOk result (text.new.items ≡ text.old.items ++ output f args.now world.old.memory) }
    ensures kept { OnErr result (text.new.items ≡ text.old.items) }
    ensures world { world.new ≡ record world.old { memory = world.new.memory } }
    ensures live { UnlessSpent result (AreLive world.new.memory notes.old.items → AreLive world.new.memory notes.new.items) }
{
    call(world.memory_mut(), f, args, names, text, notes)
}

/// Whether a call found no memory.
fn is_spent(reply: Result<Reply, Stop>) -> bool
    ensures yes { result ≡ true → reply ≡ Err Stop.NoMemory }
    ensures no { result ≡ false → reply ≢ Err Stop.NoMemory }
{
    matches!(reply, Err(Stop::NoMemory))
}

/// Whether an operation found no memory.
fn is_without_memory(answer: &Result<Got, WorldFailure>) -> bool
    ensures yes { result ≡ true → answer.now ≡ Err WorldFailure.NoMemory }
    ensures no { result ≡ false → answer.now ≢ Err WorldFailure.NoMemory }
{
    matches!(answer, Err(WorldFailure::NoMemory))
}

/// A call of the library, with what happened within it told.
fn ask_known(
    alloc: Global,
    world: &mut World,
    f: Library,
    args: &[Arg],
    names: &Names,
    text: &mut Vec<u8>,
    told: &mut Vec<What>,
) -> Result<Got, WorldFailure>
    requires named { 1 < length names.now }
    requires heap { text_of names.now 1 ≡ codes "@heap" }
    requires made { All (λ a. IsMadeValue world.old.memory.table a.value) args.now }
    ensures { Wrote (asks f args.now) result world.old world.new told.old.items told.new.items text.old.items text.new.items }
{
    let mut notes = Vec::new(alloc);
    let reply = call_in(world, f, args, names, text, &mut notes);
    if is_spent(reply) {
        return Err(WorldFailure::NoMemory);
    }
    let Ok(()) = tell_notes(told, world.memory(), &notes) else {
        return Err(WorldFailure::NoMemory);
    };
    replied(told, reply, blame_in(&notes))
}

/// Whether what the names in arguments speak of was made.
#[tactic(auto, using(crate::proofs::Asked::arguments_made))]
fn knows_arguments(world: &World, args: &[Arg]) -> bool
    ensures value { result ≡ knows_arguments world.now.memory.table args.now }
    ensures made { result ≡ true → All (λ a. IsMadeValue world.now.memory.table a.value) args.now }
{
    for i in 0..args.len() {
        if !world.knows_value(args[i].value) {
            return false;
        }
    }
    true
}

/// The same of arguments whose names may be others than those that were made.
fn ask_in(
    alloc: Global,
    world: &mut World,
    f: Library,
    args: &[Arg],
    names: &Names,
    text: &mut Vec<u8>,
    told: &mut Vec<What>,
) -> Result<Got, WorldFailure>
    requires named { 1 < length names.now }
    requires heap { text_of names.now 1 ≡ codes "@heap" }
    ensures { (b : Setting) → Wrote (does b (Asks f args.now)) result world.old world.new told.old.items told.new.items text.old.items text.new.items }
{
    if knows_arguments(world, args) {
        ask_known(alloc, world, f, args, names, text, told)
    } else {
        Err(unfit(told))
    }
}

impl Moment {
    /// A text is printed.
    fn print(&mut self, text: &[u8]) -> Result<(), NoMemory>
        ensures printed { OnOk result (self.new ≡ record self.old { printed = self.old.printed ++ text.now; total = self.old.total + length text.now }) }
        ensures unchanged { OnErr result (self.new ≡ self.old) }
    {
        let Some(total) = self.total.checked_add(text.len() as u64) else {
            return Err(NoMemory);
        };
        if self.printed.extend_from_slice(text).is_err() {
            return Err(NoMemory);
        }
        self.total = total;
        Ok(())
    }

    /// What came of an operation, and with it a text that is printed.
    fn print_with(&mut self, text: &[u8], came: Result<Got, Failure>) -> Result<Got, Failure>
        ensures came { (r : Res Worth) (out : List ℕ) (es : List Event) → Came r came (state_of self.old out es) → Came (with_text text.now r) result (state_of self.new out es) }
        ensures stays { Stays self.old self.new }
    {
        if let Err(Failure::NoMemory) = came {
            return Err(Failure::NoMemory);
        }
        match self.print(text) {
            Ok(()) => came,
            Err(NoMemory) => Err(Failure::NoMemory),
        }
    }

    /// An operation of the node in this line was made on the world, and printed this text.
    fn close_printed(
        &mut self,
        line: u32,
        before: u64,
        told: &[What],
        text: &[u8],
        answer: Result<Got, WorldFailure>,
    ) -> Result<Got, Failure>
        ensures acted { Closed line before (λ w op. Wrote op answer w self.old.world [] told.now [] text.now) self.old result self.new }
        ensures stays { Stays self.old self.new }
    {
        if is_without_memory(&answer) {
            return Err(Failure::NoMemory);
        }
        let came = self.close(line, before, told, answer);
        self.print_with(text, came)
    }

    /// A call of the library (C17 7), with these values of its arguments.
    pub fn ask(
        &mut self,
        unit: &TypedUnit,
        line: u32,
        f: Library,
        l: ListId,
        got: &Vec<Got>,
    ) -> Result<Got, Failure>
        requires runnable { IsRunnable unit.now }
        requires list { HasKinds unit.now.rows unit.now.lists (length unit.now.rows) true l }
        ensures acted { Acted unit.now line (λ b. Asks f (asked_with (arguments_in (nodes unit.now) (list_at unit.now l)) (map worth_of got.now.items))) result self.old self.new }
        ensures stays { Stays self.old self.new }
    {
        let alloc = self.alloc;
        let Ok(args) = arguments(alloc, unit, unit.children(l), got) else {
            return Err(Failure::NoMemory);
        };
        let before = self.world.pairs_made();
        let mut told = Vec::new(alloc);
        let mut text = Vec::new(alloc);
        let names = unit.names();
        let answer = ask_in(
            alloc,
            &mut self.world,
            f,
            &args,
            names,
            &mut text,
            &mut told,
        );
        self.close_printed(line, before, &told, &text, answer)
    }
}
