// Before the first turn (C17 5.1.2p1): static objects, literals, and static initializers.
ghost use Rattle.std.specs.Prelude.{◌≡◌, ◌<◌, ◌+◌, length, Some};
ghost use Rattle.pv_typed.specs.TypedUnits.{object_at};
ghost use Rattle.pv_eval.specs.Moments.{Always, Stays, state_of};
ghost use Rattle.pv_eval.specs.Moments.{Made};
ghost use Rattle.pv_eval.specs.Runnable.{IsRunnable};
ghost use Rattle.pv_exec.specs.Fits.{HasStore};
ghost use Rattle.pv_exec.specs.Prepared.{StoresOne};
ghost use Rattle.pv_exec.specs.OfRuns.{make_static, store_static, prepare};
ghost use Rattle.pv_exec.specs.Lists.{make_statics, make_literals, make_functions, store_statics, initialize_statics};

use crate::stores::init_at;
use pv_eval::{Failure, Machine};
use pv_typed::{InitValue, TypedUnit, constant};

// An object with static storage is made, each byte 0 (C17 6.2.4p3, 6.7.9p10).
fn make_static(unit: &TypedUnit, o: u32, machine: &mut Machine) -> Result<(), Failure>
    requires runnable { IsRunnable unit.now }
    requires there { o < length unit.now.objects }
    ensures made { Always unit.now machine.old.moment (λ b out es. Made (make_static b o (state_of machine.old.moment out es)) result (state_of machine.new.moment out es)) }
    ensures started { machine.new.started ≡ machine.old.started }
    ensures stays { Stays machine.old.moment machine.new.moment }
{
    match machine.make(unit, unit.object(o).line, o) {
        Ok(()) => machine.fill(unit, o, Some(0)),
        Err(e) => Err(e),
    }
}

// All of them, in order.
fn make_statics(unit: &TypedUnit, machine: &mut Machine) -> Result<(), Failure>
    requires runnable { IsRunnable unit.now }
    ensures made { Always unit.now machine.old.moment (λ b out es. Made (make_statics b b.unit.statics (state_of machine.old.moment out es)) result (state_of machine.new.moment out es)) }
    ensures started { machine.new.started ≡ machine.old.started }
    ensures stays { Stays machine.old.moment machine.new.moment }
{
    let objects = unit.statics();
    let mut i = 0;
    'objects: while i < objects.len() {
        match make_static(unit, objects[i], machine) {
            Ok(()) => {}
            Err(e) => return Err(e),
        }
        i += 1;
    }
    Ok(())
}

// The literals, in the order of the source (C17 6.4.5p6).
fn make_literals(unit: &TypedUnit, machine: &mut Machine) -> Result<(), Failure>
    requires runnable { IsRunnable unit.now }
    ensures made { Always unit.now machine.old.moment (λ b out es. Made (make_literals b b.unit.instances (state_of machine.old.moment out es)) result (state_of machine.new.moment out es)) }
    ensures started { machine.new.started ≡ machine.old.started }
    ensures stays { Stays machine.old.moment machine.new.moment }
{
    let literals = unit.literals();
    let mut i = 0;
    'literals: while i < literals.len() {
        let l = literals[i];
        match machine.make_literal(unit, unit.literal_line(l), l) {
            Ok(()) => {}
            Err(e) => return Err(e),
        }
        i += 1;
    }
    Ok(())
}

// The functions that are pointed to, in the order of their first declarations (C17 6.3.2.1p4).
fn make_functions(unit: &TypedUnit, machine: &mut Machine) -> Result<(), Failure>
    requires runnable { IsRunnable unit.now }
    ensures made { Always unit.now machine.old.moment (λ b out es. Made (make_functions b b.unit.placed (state_of machine.old.moment out es)) result (state_of machine.new.moment out es)) }
    ensures started { machine.new.started ≡ machine.old.started }
    ensures stays { Stays machine.old.moment machine.new.moment }
{
    let functions = unit.placed();
    let mut i = 0;
    'functions: while i < functions.len() {
        let f = functions[i];
        match machine.make_function(unit, unit.function(f).line, f) {
            Ok(()) => {}
            Err(e) => return Err(e),
        }
        i += 1;
    }
    Ok(())
}

// A store of a static initializer (C17 6.7.9p4).
fn store_static(unit: &TypedUnit, o: u32, i: usize, machine: &mut Machine) -> Result<(), Failure>
    requires runnable { IsRunnable unit.now }
    requires there { HasStore unit.now o i }
    ensures made { StoresOne unit.now o i result machine.old machine.new }
    ensures started { machine.new.started ≡ machine.old.started }
    ensures stays { Stays machine.old.moment machine.new.moment }
{
    let init = init_at(unit, o, i);
    match init.what {
        InitValue::Node(e) => match constant(unit, e) {
            Some(c) => {
                let v = machine.constant(c);
                machine.put(unit, o, init.offset, init.t, &v)
            }
            None => Ok(()),
        },
        InitValue::Text(l) => machine.put_text(unit, o, init.offset, init.t, l),
    }
}

// The stores of an object, in order.
fn store_statics(unit: &TypedUnit, o: u32, machine: &mut Machine) -> Result<(), Failure>
    requires runnable { IsRunnable unit.now }
    requires there { o < length unit.now.objects }
    ensures made { Always unit.now machine.old.moment (λ b out es. Made (store_statics b o (object_at b.unit o).inits (state_of machine.old.moment out es)) result (state_of machine.new.moment out es)) }
    ensures started { machine.new.started ≡ machine.old.started }
    ensures stays { Stays machine.old.moment machine.new.moment }
{
    let stores = unit.inits(o);
    let mut i = 0;
    'stores: while i < stores.len() {
        match store_static(unit, o, i, machine) {
            Ok(()) => {}
            Err(e) => return Err(e),
        }
        i += 1;
    }
    Ok(())
}

// All of them, in order.
fn initialize_statics(unit: &TypedUnit, machine: &mut Machine) -> Result<(), Failure>
    requires runnable { IsRunnable unit.now }
    ensures made { Always unit.now machine.old.moment (λ b out es. Made (initialize_statics b b.unit.statics (state_of machine.old.moment out es)) result (state_of machine.new.moment out es)) }
    ensures started { machine.new.started ≡ machine.old.started }
    ensures stays { Stays machine.old.moment machine.new.moment }
{
    let objects = unit.statics();
    let mut i = 0;
    'objects: while i < objects.len() {
        match store_statics(unit, objects[i], machine) {
            Ok(()) => {}
            Err(e) => return Err(e),
        }
        i += 1;
    }
    Ok(())
}

/// Static objects, literals and the instances of functions are made, and static initializers stored.
pub fn prepare(unit: &TypedUnit, machine: &mut Machine) -> Result<(), Failure>
    requires runnable { IsRunnable unit.now }
    ensures made { Always unit.now machine.old.moment (λ b out es. Made (prepare b (state_of machine.old.moment out es)) result (state_of machine.new.moment out es)) }
    ensures started { machine.new.started ≡ machine.old.started }
    ensures stays { Stays machine.old.moment machine.new.moment }
{
    match make_statics(unit, machine) {
        Ok(()) => {}
        Err(e) => return Err(e),
    }
    match make_literals(unit, machine) {
        Ok(()) => {}
        Err(e) => return Err(e),
    }
    match make_functions(unit, machine) {
        Ok(()) => {}
        Err(e) => return Err(e),
    }
    initialize_statics(unit, machine)
}
