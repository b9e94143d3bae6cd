// What a typed unit holds, by the calls that make it and read it. Short functions: what one costs to prove grows faster
// than the number of its calls.
ghost use Rattle.std.specs.Prelude.{◌<◌, ◌≡◌, IfSome, IsTrue, is_some, length};
ghost use Rattle.pv_typed.specs.Tables.{whole_unit};
ghost use Rattle.pv_typed.specs.NodeTrees.{IsExpression};
ghost use Rattle.pv_typed.specs.Formed.{Grown, no_tables};
ghost use Rattle.pv_typed.specs.Known.{AreKnown};
ghost use Rattle.pv_typed.specs.Mains.{main_of};
ghost use Rattle.pv_front_tests.specs.Ready.{IsReady};

use crate::sorts::are_told_apart;
use crate::tags::has_tags;
use crate::typing::types_a_sum;
use pv_library::Library;
use pv_num::{BinOp, IntKind};
use pv_tree::NodeId;
use pv_typed::{
    Const, Function, Init, InitValue, Object, Typed, TypedStmt, TypedUnit, constant, integer,
    is_null_constant,
};
use pv_types::{Term, TypeId};
use std::alloc::Global;
use std::process::Abort;

/// `7`.
fn seven(u: &mut TypedUnit, int: TypeId) -> Option<NodeId>
    requires { int.0 < length u.old.known.terms }
    ensures types { int.0 < length u.new.known.terms }
    ensures node { IfSome result (λ n. IsExpression u.new n) }
{
    let Ok(n) = u.add_node(Typed::Constant(7), int, 3, true) else {
        return None;
    };
    Some(n)
}

/// A name, and its number.
fn named(u: &mut TypedUnit, int: TypeId, text: &[u8]) -> Option<u32>
    requires { int.0 < length u.old.known.terms }
    ensures types { int.0 < length u.new.known.terms }
    ensures name { IfSome result (λ n. n < length u.new.names) }
{
    let Ok(n) = u.add_name(text) else {
        return None;
    };
    if n < u.names().len() { Some(n) } else { None }
}

/// An object of type `int`, and its number.
fn object(u: &mut TypedUnit, int: TypeId) -> Option<u32>
    requires { int.0 < length u.old.known.terms }
    ensures types { int.0 < length u.new.known.terms }
    ensures object { IfSome result (λ o. o < length u.new.objects) }
{
    let Some(name) = named(u, int, b"x") else {
        return None;
    };
    let x = Object {
        name,
        t: int,
        line: 1,
        lasting: true,
        braced: false,
    };
    let Ok(o) = u.add_object(x) else {
        return None;
    };
    Some(o)
}

/// A function, and its number. Its type is of no account here.
fn function(u: &mut TypedUnit, int: TypeId) -> Option<u32>
    requires { int.0 < length u.old.known.terms }
    ensures types { int.0 < length u.new.known.terms }
    ensures function { IfSome result (λ f. f < length u.new.functions) }
{
    let Some(name) = named(u, int, b"f") else {
        return None;
    };
    let x = Function {
        name,
        t: int,
        line: 7,
        body: None,
    };
    let Ok(f) = u.add_function(x) else {
        return None;
    };
    Some(f)
}

/// `7` is a constant, and no null pointer constant.
fn has_a_value(u: &mut TypedUnit, int: TypeId) -> bool
    requires { IsReady u.old int }
    ensures { IsReady u.new int }
{
    let Ok(seven) = u.add_node(Typed::Constant(7), int, 3, true) else {
        return false;
    };
    matches!(constant(u, seven), Some(Const::Int(7)))
        && integer(u, seven) == Some(7)
        && !is_null_constant(u, seven)
}

/// `7 + 7` has three turns.
fn has_three_turns(u: &mut TypedUnit, int: TypeId) -> bool {
    if !u.types().has(int) {
        return false;
    }
    let Some(seven) = seven(u, int) else {
        return false;
    };
    if u.plain_turns(seven) != Some(1) {
        return false;
    }
    match u.add_node(Typed::Arithmetic(BinOp::Add, seven, seven), int, 3, true) {
        Ok(sum) => u.plain_turns(sum) == Some(3),
        Err(_) => false,
    }
}

/// `int x = 7;`
fn has_its_store(u: &mut TypedUnit, int: TypeId) -> bool {
    if !u.types().has(int) {
        return false;
    }
    let Some(o) = object(u, int) else {
        return false;
    };
    let Some(seven) = seven(u, int) else {
        return false;
    };
    if o >= u.objects() {
        return false;
    }
    let x = Init {
        offset: 0,
        t: int,
        line: 2,
        what: InitValue::Node(seven),
    };
    match u.add_init(o, x) {
        Ok(()) => u.objects() == 1 && u.inits(o).len() == 1,
        Err(_) => false,
    }
}

/// An object with static storage.
fn is_listed(u: &mut TypedUnit, int: TypeId) -> bool {
    if !u.types().has(int) {
        return false;
    }
    let Some(o) = object(u, int) else {
        return false;
    };
    match u.add_static(o) {
        Ok(()) => u.statics() == [o].as_slice(),
        Err(_) => false,
    }
}

/// An object that gets another line.
fn is_changed(u: &mut TypedUnit, int: TypeId) -> bool {
    if !u.types().has(int) {
        return false;
    }
    let Some(o) = object(u, int) else {
        return false;
    };
    let mut moved = u.object(o);
    moved.line = 8;
    if !u.types().has(moved.t) {
        return false;
    }
    if moved.name >= u.names().len() {
        return false;
    }
    u.set_object(o, moved);
    u.object(o).line == 8
}

/// A unit of one declaration.
fn has_one_declaration(u: &mut TypedUnit) -> bool {
    u.add_declaration().is_ok() && u.declarations() == 1
}

/// A function behind `main`, that gets another line.
fn is_changed_function(u: &mut TypedUnit, int: TypeId) -> bool {
    if !u.types().has(int) {
        return false;
    }
    let Some(f) = function(u, int) else {
        return false;
    };
    let mut moved = u.function(f);
    moved.line = 8;
    if !u.types().has(moved.t) {
        return false;
    }
    if moved.name >= u.names().len() {
        return false;
    }
    u.set_function(f, moved);
    u.functions() == 2 && u.function(f).line == 8
}

/// A function with a parameter.
fn has_its_parameter(u: &mut TypedUnit, int: TypeId) -> bool {
    if !u.types().has(int) {
        return false;
    }
    let Some(n) = object(u, int) else {
        return false;
    };
    let Some(f) = function(u, int) else {
        return false;
    };
    if n >= u.objects() {
        return false;
    }
    match u.add_param(f, n) {
        Ok(()) => u.params_of(f) == [n].as_slice(),
        Err(_) => false,
    }
}

/// A function that is pointed to.
fn is_placed(u: &mut TypedUnit, int: TypeId) -> bool {
    if !u.types().has(int) {
        return false;
    }
    let Some(f) = function(u, int) else {
        return false;
    };
    match u.add_placed(f) {
        Ok(()) => u.placed() == [f].as_slice(),
        Err(_) => false,
    }
}

/// The literal `"ab"` on line 9.
fn keeps_a_literal(u: &mut TypedUnit) -> bool {
    match u.add_literal(b"ab\0", 9, true) {
        Ok(l) => {
            u.literals() == [l].as_slice()
                && u.literal(l) == b"ab\0".as_slice()
                && u.literal_line(l) == 9
        }
        Err(_) => false,
    }
}

/// `exit(7)` on line 6.
fn call(u: &mut TypedUnit, int: TypeId) -> Option<NodeId>
    requires { int.0 < length u.old.known.terms }
    ensures { IfSome result (λ n. IsExpression u.new n) }
{
    let Some(seven) = seven(u, int) else {
        return None;
    };
    let Ok(l) = u.add_list(&[seven]) else {
        return None;
    };
    if u.children(l).len() != 1 {
        return None;
    }
    u.add_node(Typed::LibraryCall(Library::Exit, l), int, 6, false)
        .ok()
}

/// It is of its type and on its line, and takes no turn.
fn has_its_arguments(u: &mut TypedUnit, int: TypeId) -> bool {
    if !u.types().has(int) {
        return false;
    }
    let Some(exit) = call(u, int) else {
        return false;
    };
    matches!(u.node(exit), Typed::LibraryCall(Library::Exit, _))
        && u.type_of(exit) == int
        && u.line_of(exit) == 6
        && !u.counts(exit)
        && u.plain_turns(exit).is_none()
}

/// A block that declares an object.
fn has_its_object(u: &mut TypedUnit, int: TypeId) -> bool {
    if !u.types().has(int) {
        return false;
    }
    let Some(o) = object(u, int) else {
        return false;
    };
    let Ok(l) = u.add_list(&[]) else {
        return false;
    };
    match u.add_statement(TypedStmt::Block(l), 4, &[o]) {
        Ok(block) => {
            matches!(u.statement(block), TypedStmt::Block(_)) && u.declared(block) == [o].as_slice()
        }
        Err(_) => false,
    }
}

/// A name by the table that is lent.
fn lends_its_names(u: &mut TypedUnit) -> bool {
    match u.names_mut().add(b"lent") {
        Ok(n) => n < u.names().len() && u.names().text(n) == b"lent".as_slice(),
        Err(_) => false,
    }
}

/// A type by the table that is lent.
fn lends_its_types(alloc: Global, u: &mut TypedUnit) -> bool {
    if !are_told_apart(alloc, u.types_mut()) {
        return false;
    }
    match u.types_mut().intern(Term::Void) {
        Ok(t) => matches!(u.types().view(t), Term::Void),
        Err(_) => false,
    }
}

/// Expressions, objects and declarations.
fn has_objects(rt: &impl Abort, u: &mut TypedUnit, int: TypeId) {
    assert!(rt; has_three_turns(u, int));
    assert!(rt; has_its_store(u, int));
    assert!(rt; is_listed(u, int));
    assert!(rt; is_changed(u, int));
    assert!(rt; has_one_declaration(u));
}

/// Functions, literals, calls and statements.
fn has_functions(rt: &impl Abort, alloc: Global, u: &mut TypedUnit, int: TypeId) {
    assert!(rt; is_changed_function(u, int));
    assert!(rt; has_its_parameter(u, int));
    assert!(rt; is_placed(u, int));
    assert!(rt; keeps_a_literal(u));
    assert!(rt; has_its_arguments(u, int));
    assert!(rt; has_its_object(u, int));
    assert!(rt; lends_its_names(u) && lends_its_types(alloc, u));
}

/// Declares `main`.
fn declare_main(rt: &impl Abort, u: &mut TypedUnit, t: TypeId) -> u32
    requires { IsReady u.old t }
    ensures ready { IsReady u.new t }
    ensures main { IsTrue (is_some (main_of (whole_unit u.new))) }
    ensures grown { Grown u.old u.new }
{
    let name = u.add_name(b"main").expect(rt, "no memory");
    assert!(rt; name < u.names().len());
    let x = Function {
        name,
        t,
        line: 7,
        body: None,
    };
    u.add_function(x).expect(rt, "no memory")
}

/// A new unit, to which all that follows is added.
fn has_what_is_added(rt: &impl Abort, alloc: Global, u: &mut TypedUnit)
    requires known { AreKnown u.old }
    requires tables { u.old ≡ no_tables }
{
    types_a_sum(rt, alloc, u);
    let int = u.intern(Term::Int(IntKind::Int)).expect(rt, "no memory");
    let main = declare_main(rt, u, int);
    assert!(rt; u.main() == main);
    assert!(rt; has_a_value(u, int));
    has_tags(rt, alloc, u, int);
    has_objects(rt, u, int);
    has_functions(rt, alloc, u, int);
}

/// One unit for all calls: a function that owns one takes more to prove than all that borrow it.
#[test]
fn a_unit_has_what_is_typed_and_added(rt: HostRuntime) {
    let mut u = TypedUnit::new(rt.alloc()).expect(&rt, "no memory");
    has_what_is_added(&rt, rt.alloc(), &mut u);
}
