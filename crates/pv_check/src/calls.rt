//! Calls of functions (C17 6.5.2.2) whose arguments are typed.
ghost use Rattle.std.specs.Prelude.{◌≡◌, ◌<◌, ◌≤◌, Bool, Some, map, drop, length, IfOk, IfSome, OnOk};
ghost use Rattle.pv_types.specs.Known.{tree, trees, tys_in};
ghost use Rattle.pv_types.specs.Formed.{parameters_at, AllBelow};
ghost use Rattle.pv_typed.specs.Known.{Each, AreKnown};
ghost use Rattle.pv_typed.specs.Tables.{whole_unit};
ghost use Rattle.pv_typed.specs.NodeTrees.{expression_at, list_at, IsExpression};
ghost use Rattle.pv_typed.specs.TypedTree.{form_of};
ghost use Rattle.pv_typed.specs.TypedUnits.{function_at, name_at};
ghost use Rattle.pv_check.specs.Arms.{after_node, OpenIf};
ghost use Rattle.pv_check.specs.Calls.{further_argument, passed_arguments, string_in, literal_in, may_pass};
ghost use Rattle.pv_check.specs.CallParts.{called_by_name, call_through, call_of, is_format_literal, pointed_call, library_call, program_call};
ghost use Rattle.pv_check.specs.Kept.{Kept, expression_if};
ghost use Rattle.pv_library.specs.LibraryNames.{library_named};
ghost use Rattle.pv_check.specs.Open.{state_of, IsOpen, Texts, IfAnswered};
ghost use Rattle.pv_check.specs.Passing.{one_passed, trees_if, arguments_after};
ghost use Rattle.pv_check.specs.RowParts.{call};
ghost use Rattle.pv_check.specs.Rows.{function_in, callee, call_by};
ghost use Rattle.pv_check.specs.Scopes.{look};
ghost use Rattle.pv_check.specs.Raw.{scopes_shown};
ghost use Rattle.pv_tree.specs.Tables.{Is, is_expression, expression_at as expression_of_node};
ghost use Rattle.pv_check.specs.Callees.{AreCalled, CalleeKnown, callee_in};

use crate::formats::is_format;
use crate::names::look_up;
use crate::operators::assigned;
use crate::scopes::{Entry, Named, Scopes};
use crate::sorts::{is_void, pointed_by};
use crate::values::{add, promoted_value};
use pv_library::{Library, library_named};
use pv_tree::{Expr, ListId, NodeId, Unit};
use pv_typed::{Typed, TypedUnit};
use pv_types::{NoMemory, Term, TypeId};
use std::alloc::Global;

/// The function whose name is called, parentheses aside (C17 6.5.2.2p1).
fn callee(s: &Scopes, u: &Unit, into: &TypedUnit, n: NodeId) -> Option<u32>
    requires node { Is u.now is_expression n }
    requires open { IsOpen into.now s.now }
    ensures known { IfSome result (λ f. f < length into.now.functions) }
    ensures value { (texts : Texts) (hidden : Bool) → result ≡ callee (state_of texts hidden s.now into.now).scopes (expression_of_node u.now.forest n) }
{
    match u.expr(n) {
        Expr::Name(name) => function_named(s, into, name),
        Expr::Paren(a) => callee(s, u, into, a),
        _ => None,
    }
}

/// The function that a name designates.
fn function_named(s: &Scopes, into: &TypedUnit, name: u32) -> Option<u32>
    requires open { IsOpen into.now s.now }
    ensures known { IfSome result (λ f. f < length into.now.functions) }
    ensures value { result ≡ function_in (look (scopes_shown into.now.known s.now.scopes) name) }
{
    match look_up(s, into, name) {
        Some(Entry::Function(f)) => Some(f),
        Some(Entry::Object(_)) | Some(Entry::Typedef(_)) | Some(Entry::Constant(_)) => None,
        None => None,
    }
}

/// What a call calls (C17 6.5.2.2p1).
#[derive(Clone, Copy)]
pub(crate) enum Target {
    /// A function, by its name.
    Named(u32),
    /// What a value points to.
    Pointed(NodeId),
}

/// The function that is called by its name, which counts as used.
pub(crate) fn used_callee(
    s: &mut Scopes,
    u: &Unit,
    into: &TypedUnit,
    n: NodeId,
) -> Result<Option<u32>, NoMemory>
    requires node { Is u.now is_expression n }
    requires open { IsOpen into.now s.old }
    ensures open { OnOk result (IsOpen into.now s.new) }
    ensures known { IfAnswered result (λ f. f < length into.now.functions) }
    ensures value { IfOk result (λ r. (texts : Texts) (hidden : Bool) → AreCalled texts hidden s.new into.now (expression_of_node u.now.forest n) (state_of texts hidden s.old into.now) r) }
{
    let Some(f) = callee(s, u, into, n) else {
        return Ok(None);
    };
    s.note(Named::Function(f))?;
    Ok(Some(f))
}

/// An argument beyond the parameters (C17 6.5.2.2p6).
fn further(into: &mut TypedUnit, a: NodeId) -> Result<Option<NodeId>, NoMemory>
    requires known { AreKnown into.old }
    requires node { IsExpression into.old a }
    ensures node { IfAnswered result (IsExpression into.new) }
    ensures typed { IfOk result (λ r. expression_if into.new r ≡ further_argument (expression_at into.old a)) }
    ensures kept { OnOk result (Kept into.old into.new) }
{
    if is_void(into.types(), into.type_of(a)) {
        return Ok(None);
    }
    let r = promoted_value(into, a)?;
    Ok(Some(r))
}

/// The argument at a place (C17 6.5.2.2p2, p7), `None` where the function takes none there.
fn argument(
    into: &mut TypedUnit,
    types: &[TypeId],
    variadic: bool,
    i: usize,
    a: NodeId,
) -> Result<Option<NodeId>, NoMemory>
    requires known { AreKnown into.old }
    requires types { AllBelow (length into.old.known.terms) types.now }
    requires node { IsExpression into.old a }
    ensures node { IfAnswered result (IsExpression into.new) }
    ensures typed { IfOk result (λ r. expression_if into.new r ≡ one_passed (tys_in (trees into.old.known) (drop i types.now)) variadic (expression_at into.old a)) }
    ensures kept { OnOk result (Kept into.old into.new) }
{
    if i < types.len() {
        return assigned(into, types[i], a);
    }
    if !variadic {
        return Ok(None);
    }
    further(into, a)
}

/// The arguments of a function with parameters of these types (C17 6.5.2.2p2, p7).
fn passed(
    alloc: Global,
    into: &mut TypedUnit,
    types: &[TypeId],
    variadic: bool,
    args: &[NodeId],
) -> Result<Option<Vec<NodeId>>, NoMemory>
    requires known { AreKnown into.old }
    requires types { AllBelow (length into.old.known.terms) types.now }
    requires nodes { Each (IsExpression into.old) args.now }
    ensures nodes { IfAnswered result (λ v. Each (IsExpression into.new) v.items) }
    ensures typed { IfOk result (λ r. trees_if into.new r ≡ passed_arguments (tys_in (trees into.old.known) types.now) variadic (map (expression_at into.old) args.now)) }
    ensures kept { OnOk result (Kept into.old into.new) }
{
    let mut list = Vec::new(alloc);
    let mut i = 0;
    while i < args.len() {
        let Some(x) = argument(into, types, variadic, i, args[i])? else {
            return Ok(None);
        };
        list.push(x)?;
        i += 1;
    }
    if args.len() < types.len() {
        return Ok(None);
    }
    Ok(Some(list))
}

/// The number of a string literal.
fn string_in(into: &TypedUnit, n: NodeId) -> Option<u32>
    requires { IsExpression into.now n }
    ensures known { IfSome result (λ l. l < length into.now.literals) }
    ensures value { result ≡ string_in (form_of (expression_at into.now n)) }
{
    match into.node(n) {
        Typed::String(l) => Some(l),
        _ => None,
    }
}

/// The number of the string literal whose first byte an argument points to.
fn literal_in(into: &TypedUnit, n: NodeId) -> Option<u32>
    requires { IsExpression into.now n }
    ensures known { IfSome result (λ l. l < length into.now.literals) }
    ensures value { result ≡ literal_in (form_of (expression_at into.now n)) }
{
    match into.node(n) {
        Typed::Convert(a) => literal_in(into, a),
        Typed::ArrayPointer(a) => string_in(into, a),
        _ => None,
    }
}

/// Whether `printf` takes an argument as its format (C17 7.21.6.1p8).
fn is_format_at(into: &TypedUnit, n: NodeId) -> bool
    requires { IsExpression into.now n }
    ensures { result ≡ is_format_literal (whole_unit into.now) (literal_in (form_of (expression_at into.now n))) }
{
    match literal_in(into, n) {
        Some(l) => is_format(into.literal(l)),
        None => false,
    }
}

/// Whether a function of the library takes the arguments, beyond their types (C17 7.21.6.1p8).
fn may_pass(into: &TypedUnit, f: Library, args: &[NodeId]) -> bool
    requires { Each (IsExpression into.now) args.now }
    ensures { result ≡ may_pass (whole_unit into.now) f (map (expression_at into.now) args.now) }
{
    match f {
        Library::Printf => !args.is_empty() && is_format_at(into, args[0]),
        _ => true,
    }
}

/// A list of nodes, for the arguments of a call.
fn listed(into: &mut TypedUnit, args: &[NodeId]) -> Result<ListId, NoMemory>
    requires nodes { Each (IsExpression into.old) args.now }
    ensures number { IfOk result (λ l. l.0 < length into.new.lists) }
    ensures list { IfOk result (λ l. list_at into.new l ≡ args.now) }
    ensures nodes { OnOk result (Each (IsExpression into.new) args.now) }
    ensures trees { OnOk result (map (expression_at into.new) args.now ≡ map (expression_at into.old) args.now) }
    ensures functions { OnOk result (length into.old.functions ≤ length into.new.functions) }
    ensures kept { OnOk result (Kept into.old into.new) }
{
    let l = into.add_list(args)?;
    Ok(l)
}

/// A call of a function of the library.
fn library_call(
    into: &mut TypedUnit,
    line: u32,
    f: Library,
    t: TypeId,
    args: &[NodeId],
) -> Result<Option<NodeId>, NoMemory>
    requires known { AreKnown into.old }
    requires target { t.0 < length into.old.known.terms }
    requires nodes { Each (IsExpression into.old) args.now }
    ensures node { IfAnswered result (IsExpression into.new) }
    ensures typed { IfOk result (λ r. expression_if into.new r ≡ library_call (whole_unit into.old) line f (tree into.old.known t.0) (Some (map (expression_at into.old) args.now))) }
    ensures kept { OnOk result (Kept into.old into.new) }
{
    if !may_pass(into, f, args) {
        return Ok(None);
    }
    let l = listed(into, args)?;
    let r = add(into, Typed::LibraryCall(f, l), t, line, true)?;
    Ok(Some(r))
}

/// A call of a function of the program.
fn program_call(
    into: &mut TypedUnit,
    line: u32,
    f: u32,
    t: TypeId,
    args: &[NodeId],
) -> Result<Option<NodeId>, NoMemory>
    requires known { AreKnown into.old }
    requires function { f < length into.old.functions }
    requires target { t.0 < length into.old.known.terms }
    requires nodes { Each (IsExpression into.old) args.now }
    ensures node { IfAnswered result (IsExpression into.new) }
    ensures typed { IfOk result (λ r. expression_if into.new r ≡ program_call line f (tree into.old.known t.0) (Some (map (expression_at into.old) args.now))) }
    ensures kept { OnOk result (Kept into.old into.new) }
{
    let l = listed(into, args)?;
    let r = add(into, Typed::Call(f, l), t, line, true)?;
    Ok(Some(r))
}

/// The function of the library that a function of the unit is.
fn library_of(into: &TypedUnit, f: u32) -> Option<Library>
    requires known { AreKnown into.now }
    requires function { f < length into.now.functions }
    ensures { result ≡ library_named (name_at (whole_unit into.now) (function_at (whole_unit into.now) f).name) }
{
    let name = into.function(f).name;
    library_named(into.names().text(name))
}

/// A call with arguments as they are passed.
fn called(
    into: &mut TypedUnit,
    line: u32,
    f: u32,
    t: TypeId,
    args: &[NodeId],
) -> Result<Option<NodeId>, NoMemory>
    requires known { AreKnown into.old }
    requires function { f < length into.old.functions }
    requires target { t.0 < length into.old.known.terms }
    requires nodes { Each (IsExpression into.old) args.now }
    ensures node { IfAnswered result (IsExpression into.new) }
    ensures typed { IfOk result (λ r. expression_if into.new r ≡ called_by_name (whole_unit into.old) line f (tree into.old.known t.0) (Some (map (expression_at into.old) args.now))) }
    ensures kept { OnOk result (Kept into.old into.new) }
{
    match library_of(into, f) {
        Some(l) => library_call(into, line, l, t, args),
        None => program_call(into, line, f, t, args),
    }
}

/// A call of a function that returns the type, with parameters of these types.
fn call_with(
    alloc: Global,
    into: &mut TypedUnit,
    line: u32,
    f: u32,
    t: TypeId,
    params: u32,
    variadic: bool,
    args: &[NodeId],
) -> Result<Option<NodeId>, NoMemory>
    requires known { AreKnown into.old }
    requires function { f < length into.old.functions }
    requires target { t.0 < length into.old.known.terms }
    requires list { params < length into.old.known.lists }
    requires nodes { Each (IsExpression into.old) args.now }
    ensures node { IfAnswered result (IsExpression into.new) }
    ensures typed { IfOk result (λ r. expression_if into.new r ≡ called_by_name (whole_unit into.old) line f (tree into.old.known t.0)
        (passed_arguments (parameters_at into.old.known params) variadic (map (expression_at into.old) args.now))) }
    ensures kept { OnOk result (Kept into.old into.new) }
{
    let Ok(types) = Vec::from_slice(alloc, into.types().param_list(params)) else {
        return Err(NoMemory);
    };
    let Ok(found) = passed(alloc, into, &types, variadic, args) else {
        return Err(NoMemory);
    };
    let Some(list) = found else {
        return Ok(None);
    };
    let Ok(r) = called(into, line, f, t, &list) else {
        return Err(NoMemory);
    };
    Ok(r)
}

/// A call of what a pointer points to, with arguments as they are passed.
fn pointed_call(
    into: &mut TypedUnit,
    line: u32,
    a: NodeId,
    t: TypeId,
    args: &[NodeId],
) -> Result<Option<NodeId>, NoMemory>
    requires known { AreKnown into.old }
    requires callee { IsExpression into.old a }
    requires target { t.0 < length into.old.known.terms }
    requires nodes { Each (IsExpression into.old) args.now }
    ensures node { IfAnswered result (IsExpression into.new) }
    ensures typed { IfOk result (λ r. expression_if into.new r ≡ pointed_call line (expression_at into.old a) (tree into.old.known t.0) (Some (map (expression_at into.old) args.now))) }
    ensures kept { OnOk result (Kept into.old into.new) }
{
    let l = listed(into, args)?;
    let r = add(into, Typed::CallPointer(a, l), t, line, true)?;
    Ok(Some(r))
}

/// A call of what a pointer points to: a function that returns the type, with parameters of these types.
fn call_pointer(
    alloc: Global,
    into: &mut TypedUnit,
    line: u32,
    a: NodeId,
    t: TypeId,
    params: u32,
    variadic: bool,
    args: &[NodeId],
) -> Result<Option<NodeId>, NoMemory>
    requires known { AreKnown into.old }
    requires callee { IsExpression into.old a }
    requires target { t.0 < length into.old.known.terms }
    requires list { params < length into.old.known.lists }
    requires nodes { Each (IsExpression into.old) args.now }
    ensures node { IfAnswered result (IsExpression into.new) }
    ensures typed { IfOk result (λ r. expression_if into.new r ≡ pointed_call line (expression_at into.old a) (tree into.old.known t.0)
        (passed_arguments (parameters_at into.old.known params) variadic (map (expression_at into.old) args.now))) }
    ensures kept { OnOk result (Kept into.old into.new) }
{
    let types = Vec::from_slice(alloc, into.types().param_list(params))?;
    let Some(list) = passed(alloc, into, &types, variadic, args)? else {
        return Ok(None);
    };
    let r = pointed_call(into, line, a, t, &list)?;
    Ok(r)
}

/// A call by a value that is a pointer to a function (C17 6.5.2.2).
fn call_through(
    alloc: Global,
    into: &mut TypedUnit,
    line: u32,
    a: NodeId,
    args: &[NodeId],
) -> Result<Option<NodeId>, NoMemory>
    requires known { AreKnown into.old }
    requires callee { IsExpression into.old a }
    requires nodes { Each (IsExpression into.old) args.now }
    ensures node { IfAnswered result (IsExpression into.new) }
    ensures typed { IfOk result (λ r. expression_if into.new r ≡ call_through (whole_unit into.old) line (expression_at into.old a) (map (expression_at into.old) args.now)) }
    ensures kept { OnOk result (Kept into.old into.new) }
{
    let Some(to) = pointed_by(into.types(), into.type_of(a)) else {
        return Ok(None);
    };
    match into.types().view(to) {
        Term::Function {
            result,
            params,
            variadic,
        } => {
            if is_void(into.types(), result) || into.types().is_complete(result) {
                call_pointer(alloc, into, line, a, result, params, variadic, args)
            } else {
                Ok(None)
            }
        }
        _ => Ok(None),
    }
}

/// A call of a function, whose arguments have these values (C17 6.5.2.2).
fn call_of(
    alloc: Global,
    into: &mut TypedUnit,
    line: u32,
    f: u32,
    args: &[NodeId],
) -> Result<Option<NodeId>, NoMemory>
    requires known { AreKnown into.old }
    requires function { f < length into.old.functions }
    requires nodes { Each (IsExpression into.old) args.now }
    ensures node { IfAnswered result (IsExpression into.new) }
    ensures typed { IfOk result (λ r. expression_if into.new r ≡ call_of (whole_unit into.old) line f (map (expression_at into.old) args.now)) }
    ensures kept { OnOk result (Kept into.old into.new) }
{
    let t = into.function(f).t;
    match into.types().view(t) {
        Term::Function {
            result,
            params,
            variadic,
        } => {
            if is_void(into.types(), result) || into.types().is_complete(result) {
                call_with(alloc, into, line, f, result, params, variadic, args)
            } else {
                Ok(None)
            }
        }
        _ => Ok(None),
    }
}

/// A call of what is called (C17 6.5.2.2).
fn call_by(
    alloc: Global,
    into: &mut TypedUnit,
    line: u32,
    c: Target,
    args: &[NodeId],
) -> Result<Option<NodeId>, NoMemory>
    requires known { AreKnown into.old }
    requires callee { CalleeKnown into.old c }
    requires nodes { Each (IsExpression into.old) args.now }
    ensures node { IfAnswered result (IsExpression into.new) }
    ensures typed { IfOk result (λ r. expression_if into.new r ≡ call_by (whole_unit into.old) line (callee_in into.old c) (map (expression_at into.old) args.now)) }
    ensures kept { OnOk result (Kept into.old into.new) }
{
    match c {
        Target::Named(f) => call_of(alloc, into, line, f, args),
        Target::Pointed(a) => call_through(alloc, into, line, a, args),
    }
}

/// The same beside the scopes, which stay open.
pub(crate) fn call(
    s: &Scopes,
    hidden: bool,
    line: u32,
    c: Target,
    args: &[NodeId],
    into: &mut TypedUnit,
) -> Result<Option<NodeId>, NoMemory>
    requires open { IsOpen into.old s.now }
    requires callee { CalleeKnown into.old c }
    requires nodes { Each (IsExpression into.old) args.now }
    ensures open { IfOk result (λ r. OpenIf into.new s.now r) }
    ensures typed { (texts : Texts) → IfOk result (λ r. after_node texts hidden s.now into.new r ≡ call line (callee_in into.old c) (arguments_after texts hidden s.now into.old args.now)) }
    ensures kept { OnOk result (Kept into.old into.new) }
{
    let r = call_by(s.allocator(), into, line, c, args)?;
    Ok(r)
}
