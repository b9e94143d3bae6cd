//! The names that declarators declare, and sets of typedef names that they are added to (C17 6.7.8p3).
ghost use Rattle.std.specs.Prelude.{◌≡◌, ◌||◌, ℕ, OnOk, nat_eq};
ghost use Rattle.indexmap.specs.IndexSet.{contains};
ghost use Rattle.pv_tree.specs.Tables.{tree_at, declarator_at, trees_at, is_declaration, is_declarator, is_specifier, Is, IsListOf};
ghost use Rattle.pv_tree.specs.Units.{declares, is_typedef, has_typedef, any_declares};
ghost use Rattle.pv_stmt_forms.specs.Names.{IsBefore, names_there, is_name, declares_one};

use indexmap::IndexSet;
use pv_token::NoMemory;
use pv_tree::{Decl, Declarator, ListId, NodeId, Spec, Unit};

/// Where the name of a declarator stands.
enum NamePlace {
    /// The declarator is the name.
    Here(u32),
    /// It is the name of the declarator within.
    Within(NodeId),
    /// An abstract declarator has no name.
    Nowhere,
}

/// Where the name of a declarator stands (C17 6.7.6p1).
fn name_place(unit: &Unit, n: NodeId) -> NamePlace
    requires { Is unit.now is_declarator n }
    ensures names { (m : ℕ) → declares (declarator_at unit.now.forest n) m ≡ names_there unit.now.forest result m }
    ensures before { IsBefore unit.now n result }
{
    match unit.declarator(n) {
        Declarator::Name(name) => NamePlace::Here(name),
        Declarator::Paren(inner) => NamePlace::Within(inner),
        Declarator::Pointer { declarator, .. }
        | Declarator::Array { declarator, .. }
        | Declarator::Function { declarator, .. } => NamePlace::Within(declarator),
        _ => NamePlace::Nowhere,
    }
}

/// The name that a declarator declares, unless it is abstract (C17 6.7.6p2).
fn declared_name(unit: &Unit, declarator: NodeId) -> Option<u32>
    requires { Is unit.now is_declarator declarator }
    ensures { (m : ℕ) → declares (declarator_at unit.now.forest declarator) m ≡ is_name result m }
{
    let mut at = declarator;
    loop {
        match name_place(unit, at) {
            NamePlace::Here(name) => return Some(name),
            NamePlace::Within(inner) => at = inner,
            NamePlace::Nowhere => return None,
        }
    }
}

/// Whether a specifier is `typedef`.
fn is_typedef(unit: &Unit, n: NodeId) -> bool
    requires { Is unit.now is_specifier n }
    ensures { result ≡ is_typedef (tree_at unit.now.forest n) }
{
    matches!(unit.spec(n), Spec::Typedef)
}

/// Whether `typedef` is among some specifiers.
pub fn has_typedef(unit: &Unit, specs: ListId) -> bool
    requires { IsListOf unit.now is_specifier specs }
    ensures { result ≡ has_typedef (trees_at unit.now.forest specs) }
{
    let specifiers = unit.list(specs);
    for n in specifiers {
        if is_typedef(unit, *n) {
            return true;
        }
    }
    false
}

/// Adds the name that a declarator declares.
pub fn add_name(unit: &Unit, declarator: NodeId, types: &mut IndexSet<u32>) -> Result<(), NoMemory>
    requires { Is unit.now is_declarator declarator }
    ensures { OnOk result ((m : ℕ) → contains nat_eq types.new m ≡ (contains nat_eq types.old m || declares (declarator_at unit.now.forest declarator) m)) }
{
    match declared_name(unit, declarator) {
        Some(name) => {
            types.insert(name)?;
            Ok(())
        }
        None => Ok(()),
    }
}

/// Adds the name that an init-declarator declares (C17 6.7p1).
fn add_declared(unit: &Unit, n: NodeId, types: &mut IndexSet<u32>) -> Result<(), NoMemory>
    requires { Is unit.now is_declaration n }
    ensures { OnOk result ((m : ℕ) → contains nat_eq types.new m ≡ (contains nat_eq types.old m || declares_one (tree_at unit.now.forest n) m)) }
{
    match unit.decl(n) {
        Decl::InitDeclarator { declarator, .. } => add_name(unit, declarator, types),
        _ => Ok(()),
    }
}

/// Adds the names that init-declarators declare.
pub fn add_all(unit: &Unit, declared: ListId, types: &mut IndexSet<u32>) -> Result<(), NoMemory>
    requires { IsListOf unit.now is_declaration declared }
    ensures { OnOk result ((m : ℕ) → contains nat_eq types.new m ≡ (contains nat_eq types.old m || any_declares (trees_at unit.now.forest declared) m)) }
{
    let declarators = unit.list(declared);
    for n in declarators {
        add_declared(unit, *n, types)?;
    }
    Ok(())
}
