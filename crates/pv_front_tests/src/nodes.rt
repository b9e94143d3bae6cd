// Parts of the trees of two declarations, as they are added and read back. Their depths were counted by hand.
ghost use Rattle.std.specs.Prelude.{IfSome};
ghost use Rattle.pv_tree.specs.Syntax.{is_external};
ghost use Rattle.pv_tree.specs.Tables.{Is, is_declaration, is_expression};

use pv_tree::{Decl, Declarator, Expr, Init, NoTypes, NodeId, Spec, Stmt, TypeReader, Unit};
use std::alloc::Global;

/// `'\0'`.
fn zero(unit: &mut Unit) -> Option<NodeId>
    ensures { IfSome result (λ n. Is unit.new is_expression n) }
{
    unit.add_expr(Expr::Character(0), 7).ok()
}

/// `'\0'` with its line and its depth.
fn keeps_an_expression(unit: &mut Unit) -> bool {
    let Ok(zero) = unit.add_expr(Expr::Character(0), 7) else {
        return false;
    };
    matches!(unit.expr(zero), Expr::Character(0)) && unit.line(zero) == 7 && unit.depth(zero) == 1
}

/// `= '\0'`.
fn keeps_an_initializer(unit: &mut Unit) -> bool {
    let Some(zero) = zero(unit) else {
        return false;
    };
    match unit.add_init(Init::Expr(zero), 7) {
        Ok(init) => matches!(unit.init(init), Init::Expr(e) if e.0 == zero.0),
        Err(_) => false,
    }
}

/// `return '\0';`
fn keeps_a_statement(unit: &mut Unit) -> bool {
    let Some(zero) = zero(unit) else {
        return false;
    };
    match unit.add_stmt(Stmt::Return(Some(zero)), 7) {
        Ok(end) => {
            matches!(unit.stmt(end), Stmt::Return(Some(e)) if e.0 == zero.0) && unit.depth(end) == 2
        }
        Err(_) => false,
    }
}

/// The declarator `x`.
fn keeps_a_declarator(unit: &mut Unit) -> bool {
    match unit.add_declarator(Declarator::Name(2), 7) {
        Ok(x) => matches!(unit.declarator(x), Declarator::Name(2)),
        Err(_) => false,
    }
}

/// The specifiers of `int;`.
fn keeps_a_list(unit: &mut Unit) -> bool {
    let Ok(int) = unit.add_spec(Spec::Int, 7) else {
        return false;
    };
    if !matches!(unit.spec(int), Spec::Int) {
        return false;
    }
    match unit.add_single(int) {
        Ok(specs) => unit.list(specs).len() == 1,
        Err(_) => false,
    }
}

/// `int;`
#[tactic(auto, using(pv_tree::proofs::Kept::is_new, pv_tree::proofs::Kept::is_kept, pv_tree::proofs::Kept::extends_tree, pv_tree::proofs::Kept::extends_list, pv_tree::proofs::Kept::list_new, pv_tree::proofs::Kept::has_list_kept, pv_tree::proofs::Kept::all_more, pv_tree::proofs::Kept::all_none))]
fn declaration(unit: &mut Unit) -> Option<NodeId>
    ensures declaration { IfSome result (λ n. Is unit.new is_declaration n) }
    ensures external { IfSome result (λ n. Is unit.new is_external n) }
{
    let Ok(int) = unit.add_spec(Spec::Int, 7) else {
        return None;
    };
    let Ok(specs) = unit.add_list(&[int]) else {
        return None;
    };
    let Ok(declared) = unit.add_list(&[]) else {
        return None;
    };
    unit.add_decl(Decl::Declaration { specs, declared }, 7).ok()
}

/// `int;`, the first external declaration of a unit.
fn keeps_an_external_declaration(unit: &mut Unit) -> bool {
    let Some(declaration) = declaration(unit) else {
        return false;
    };
    if !matches!(unit.decl(declaration), Decl::Declaration { .. }) {
        return false;
    }
    match unit.add_external(declaration) {
        Ok(()) => unit.count() == 1 && unit.external(0).0 == declaration.0,
        Err(_) => false,
    }
}

/// `'\0'` in a table that has room for one node.
fn keeps_in_room(alloc: Global) -> bool {
    let Ok(mut unit) = Unit::with_room(alloc, 1) else {
        return false;
    };
    keeps_an_expression(&mut unit)
}

#[test]
fn nodes_are_kept(rt: HostRuntime) {
    assert!(&rt; keeps_in_room(rt.alloc()));
    let mut unit = Unit::new(rt.alloc());
    assert!(&rt; keeps_an_expression(&mut unit));
    assert!(&rt; keeps_an_initializer(&mut unit));
    assert!(&rt; keeps_a_statement(&mut unit));
    assert!(&rt; keeps_a_declarator(&mut unit));
    assert!(&rt; keeps_a_list(&mut unit));
    assert!(&rt; keeps_an_external_declaration(&mut unit));
    assert!(&rt; NoTypes.type_name(0).is_none());
}
