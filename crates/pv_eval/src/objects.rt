// Objects and literals of a unit (C17 6.2.4, 6.4.5, 6.7.9). What can't be done, isn't: in a checked unit all can.
ghost use Rattle.std.specs.Prelude.{◌≡◌, ◌≢◌, ◌≤◌, ◌<◌, ◌+◌, ◌==◌, List, length, take, OnOk, Ok, Err, None, codes, All, false};
ghost use Rattle.pv_script.specs.Names.{name_at as text_of};
ghost use Rattle.pv_types.specs.Known.{tree};
ghost use Rattle.pv_inst.specs.Table.{IsMadeIn};
ghost use Rattle.pv_watch.specs.declared.event.What.{What as Told};
ghost use Rattle.pv_world.specs.Worlds.{World as WorldView};
ghost use Rattle.pv_world.specs.Objects.{instance_of, put_at, base_in, makes_object, object_request};
ghost use Rattle.pv_world.specs.Preconditions.{HasRoom, HasSizeOf, IsStored};
ghost use Rattle.pv_world.specs.Accesses.{mark_of, stored_as};
ghost use Rattle.pv_world.specs.Coming.{Came, CameMade, Did, Seen, no_worth, worth_of, IsMadeWorth, DidAndTold};
ghost use Rattle.pv_eval.specs.TypeForms.{lvalue, is_constant};
ghost use Rattle.pv_eval.specs.Sizes.{setting_of, size_in};
ghost use Rattle.pv_eval.specs.Objects.{heap_name};
ghost use Rattle.pv_eval.specs.Stores.{fills_sized, stores, stores_bytes};
ghost use Rattle.pv_eval.specs.Runnable.{IsRunnable};
ghost use Rattle.pv_eval.specs.Operations.{Makes, MakesLiteral, MakesFunction, Ends, Fills, Puts, PutsText, does};

use crate::types::{align_of, is_constant, measured, number, shape, size_of};
use pv_inst::CreateError;
use pv_object::Scalar;
use pv_prov::NoMemory;
use pv_shadow::Byte;
use pv_typed::{Object, TypedUnit};
use pv_types::TypeId;
use pv_watch::What;
use pv_world::{Cause, Failure as WorldFailure, Got, Shape, World, characters, mark_of};
use std::alloc::Global;

/// Why a request of this name ends the run.
#[tactic(auto, using(crate::proofs::Possible::refused_stop))]
fn refused(name: u32, e: CreateError) -> WorldFailure
    ensures { (w : WorldView) (es : List Told) (s : Seen) → CameMade name (Err e) w es s → Came no_worth (Err result) w es s }
{
    match e {
        CreateError::NoMemory => WorldFailure::NoMemory,
        e => WorldFailure::Stop(Cause::Refused(name, e)),
    }
}

/// Whether a name is that of allocations, `@heap`. Each object that is made comes here, so one of more or fewer characters is not looked
/// for.
fn is_heap_name(unit: &TypedUnit, name: u32) -> bool
    requires runnable { IsRunnable unit.now }
    requires named { name < length unit.now.names }
    ensures value { result ≡ (name == heap_name) }
    ensures other { result ≡ false → text_of unit.now.names name ≢ codes "@heap" }
{
    let word = unit.names().text(name);
    if word.len() != 5 {
        return false;
    }
    match unit.names().find(b"@heap") {
        Some(heap) => name == heap,
        None => unreachable!(),
    }
}

/// An object of this size and alignment begins its lifetime.
fn make_sized(
    world: &mut World,
    unit: &TypedUnit,
    o: u32,
    x: Object,
    size: u64,
    align: u64,
    told: &mut Vec<What>,
) -> Result<(), WorldFailure>
    requires named { x.name < length unit.now.names }
    requires name { text_of unit.now.names x.name ≢ codes "@heap" }
    requires some { 1 ≤ size }
    requires aligned { 1 ≤ align }
    ensures { DidAndTold no_worth (makes_object o x.lasting (object_request x.name (text_of unit.now.names x.name) size align (is_constant (tree unit.now.known x.t.0)))) result world.old world.new told.old told.new }
{
    let constant = is_constant(unit.types(), x.t);
    let names = unit.names();
    match world.make(names, o, x.lasting, x.name, size, align, constant, told) {
        Ok(()) => Ok(()),
        Err(e) => Err(refused(x.name, e)),
    }
}

/// An object begins its lifetime, where its type is complete and its name isn't that of allocations.
pub(crate) fn make(
    world: &mut World,
    unit: &TypedUnit,
    o: u32,
    told: &mut Vec<What>,
) -> Result<(), WorldFailure>
    requires runnable { IsRunnable unit.now }
    requires named { o < length unit.now.objects }
    ensures { DidAndTold no_worth (does (setting_of unit.now) (Makes o)) result world.old world.new told.old told.new }
{
    let x = unit.object(o);
    let Some(l) = measured(unit.types(), x.t) else {
        return Ok(());
    };
    if is_heap_name(unit, x.name) {
        return Ok(());
    }
    let align = align_of(unit.types(), x.t);
    make_sized(world, unit, o, x, l.size, align, told)
}

/// A function that is pointed to has an instance, where its name isn't that of allocations.
pub(crate) fn make_function(
    world: &mut World,
    unit: &TypedUnit,
    f: u32,
    told: &mut Vec<What>,
) -> Result<(), WorldFailure>
    requires runnable { IsRunnable unit.now }
    requires named { f < length unit.now.functions }
    ensures { DidAndTold no_worth (does (setting_of unit.now) (MakesFunction f)) result world.old world.new told.old told.new }
{
    let name = unit.function(f).name;
    if is_heap_name(unit, name) {
        return Ok(());
    }
    match world.make_function(unit.names(), f, name, told) {
        Ok(()) => Ok(()),
        Err(e) => Err(refused(name, e)),
    }
}

/// The array of a literal begins its lifetime, if it has bytes.
pub(crate) fn make_literal(
    world: &mut World,
    unit: &TypedUnit,
    l: u32,
    told: &mut Vec<What>,
) -> Result<(), WorldFailure>
    requires runnable { IsRunnable unit.now }
    requires named { l < length unit.now.literals }
    ensures { DidAndTold no_worth (does (setting_of unit.now) (MakesLiteral l)) result world.old world.new told.old told.new }
{
    let bytes = unit.literal(l);
    if bytes.is_empty() {
        return Ok(());
    }
    match world.make_literal(unit.names(), l, bytes, told) {
        Ok(()) => Ok(()),
        Err(e) => Err(refused(0, e)),
    }
}

/// An object ends its lifetime, if it is live.
pub(crate) fn finish(
    world: &mut World,
    unit: &TypedUnit,
    o: u32,
    told: &mut Vec<What>,
) -> Result<(), WorldFailure>
    requires named { o < length unit.now.objects }
    ensures { DidAndTold no_worth (does (setting_of unit.now) (Ends o)) result world.old world.new told.old told.new }
{
    let lasting = unit.object(o).lasting;
    let i = world.instance(o, lasting);
    if world.is_live(i) {
        world.end(o, lasting, told)
    } else {
        Ok(())
    }
}

/// So many bytes of an object become this one, where it has them.
fn fill_sized(
    world: &mut World,
    o: u32,
    lasting: bool,
    size: u64,
    value: Option<u8>,
) -> Result<(), WorldFailure>
    ensures { (told : List Told) → Did no_worth (fills_sized o lasting size value) result world.old world.new told told }
{
    let i = world.instance(o, lasting);
    if world.has_room(i, 0, size) {
        world.fill(o, lasting, size, value)
    } else {
        Ok(())
    }
}

/// Every byte of an object becomes this one.
pub(crate) fn fill(
    world: &mut World,
    unit: &TypedUnit,
    o: u32,
    value: Option<u8>,
) -> Result<(), WorldFailure>
    requires named { o < length unit.now.objects }
    ensures { (told : List Told) → Did no_worth (does (setting_of unit.now) (Fills o value)) result world.old world.new told told }
{
    let x = unit.object(o);
    match size_of(unit.types(), x.t) {
        Some(size) => fill_sized(world, o, x.lasting, size, value),
        None => Ok(()),
    }
}

/// A value is stored in an object, through a type of this number.
fn put_stored(
    world: &mut World,
    o: u32,
    lasting: bool,
    offset: u64,
    size: u64,
    number: u32,
    shape: Shape,
    v: &Got,
)
    requires value { IsStored shape size (worth_of v.now) }
    requires made { IsMadeWorth world.old.memory.table (worth_of v.now) }
    requires room { HasRoom world.old (instance_of world.old o lasting) offset size }
    ensures { world.new ≡ put_at world.old (base_in world.old (instance_of world.old o lasting) + offset) (stored_as number shape (worth_of v.now)) }
{
    let mark = mark_of(number, shape);
    match v {
        Got::Scalar(v) => match shape {
            Shape::Int(k) => world.put_scalar(o, lasting, offset, Scalar::Int(k), v, mark),
            Shape::Pointer => world.put_scalar(o, lasting, offset, Scalar::Pointer, v, mark),
            Shape::Whole => unreachable!(),
        },
        Got::Whole(bytes, _) => match shape {
            Shape::Whole => world.put_bytes(o, lasting, offset, bytes),
            Shape::Int(_) | Shape::Pointer => unreachable!(),
        },
        Got::Nothing | Got::Missing => unreachable!(),
    }
}

/// The same, where that is possible.
fn put_sized(
    world: &mut World,
    o: u32,
    lasting: bool,
    offset: u64,
    size: u64,
    number: u32,
    shape: Shape,
    v: &Got,
)
    requires { HasSizeOf shape size }
    ensures { (told : List Told) → Did no_worth (stores o lasting offset size number shape (worth_of v.now)) (Ok tt) world.old world.new told told }
{
    let i = world.instance(o, lasting);
    if world.can_put(shape, size, v, i, offset) {
        put_stored(world, o, lasting, offset, size, number, shape, v);
    }
}

/// A value is stored in an object through a type.
pub(crate) fn put(world: &mut World, unit: &TypedUnit, o: u32, offset: u64, t: TypeId, v: &Got)
    requires named { o < length unit.now.objects }
    requires typed { t.0 < length unit.now.known.terms }
    ensures { (told : List Told) → Did no_worth (does (setting_of unit.now) (Puts o offset (lvalue (setting_of unit.now) (tree unit.now.known t.0)) (worth_of v.now))) (Ok tt) world.old world.new told told }
{
    let types = unit.types();
    let lasting = unit.object(o).lasting;
    if let Some(size) = size_of(types, t) {
        let number = number(types, t);
        let shape = shape(types, t);
        put_sized(world, o, lasting, offset, size, number, shape, v);
    }
}

/// The first of these bytes, so many or all.
fn first(bytes: &[u8], size: u64) -> &[u8]
    ensures { result.now ≡ take size bytes.now }
{
    if size < bytes.len() as u64 {
        &bytes[..size as usize]
    } else {
        bytes
    }
}

/// Characters are stored in an object, where it has room for them.
fn put_characters(world: &mut World, o: u32, lasting: bool, offset: u64, bytes: &[Byte])
    requires { All (λ x. IsMadeIn world.old.memory.table x.prov) bytes.now }
    ensures { (told : List Told) → Did no_worth (stores_bytes o lasting offset bytes.now) (Ok tt) world.old world.new told told }
{
    let i = world.instance(o, lasting);
    if world.has_room(i, offset, bytes.len() as u64) {
        world.put_bytes(o, lasting, offset, bytes);
    }
}

/// The first characters of a literal are stored in an object, as many as the type has.
pub(crate) fn put_text(
    alloc: Global,
    world: &mut World,
    unit: &TypedUnit,
    o: u32,
    offset: u64,
    t: TypeId,
    literal: u32,
) -> Result<(), NoMemory>
    requires named { o < length unit.now.objects }
    requires literal { literal < length unit.now.literals }
    ensures { OnOk result ((told : List Told) → Did no_worth (does (setting_of unit.now) (PutsText o offset (size_in unit.now.known (tree unit.now.known t.0)) literal)) (Ok tt) world.old world.new told told) }
{
    let lasting = unit.object(o).lasting;
    let Some(size) = size_of(unit.types(), t) else {
        return Ok(());
    };
    let bytes = characters(alloc, first(unit.literal(literal), size))?;
    put_characters(world, o, lasting, offset, &bytes);
    Ok(())
}
