//! The finished trees of a unit, and new ones made of them.
ghost use Rattle.std.specs.Prelude.{◌≡◌, ◌≤◌, ◌&&◌, nat_le, length, Some};
ghost use Rattle.pv_tree.specs.Children.{HasDeclChildren, HasDeclaratorChildren, HasSpecChildren, HasInitChildren};
ghost use Rattle.pv_tree.specs.Depths.{declarator_depth};
ghost use Rattle.pv_tree.specs.Nodes.{declaration_of, declarator_of, specifier_of, initializer_of};
ghost use Rattle.pv_tree.specs.Places.{is_named, is_direct};
ghost use Rattle.pv_tree.specs.Syntax.{OfDeclaration, OfDeclarator, OfSpecifier, OfInitializer};
ghost use Rattle.pv_tree.specs.Tables.{declarator_at, is_declaration, is_declarator, is_specifier, is_initializer, Is, Extends};
ghost use Rattle.pv_decl_forms.specs.Answers.{AnswersAt};

use pv_token::{NoMemory, Tokens};
use pv_tree::{Decl, Declarator, Init, NodeId, Spec, Unit};

/// Whether a declarator has a name.
pub(crate) fn is_named(unit: &Unit, n: NodeId) -> bool
    requires { Is unit.now is_declarator n }
    ensures { result ≡ is_named (declarator_at unit.now.forest n) }
{
    match unit.declarator(n) {
        Declarator::Name(_)
        | Declarator::Paren(_)
        | Declarator::Pointer { .. }
        | Declarator::Array { .. }
        | Declarator::Function { .. } => true,
        _ => false,
    }
}

/// Whether brackets and parameters may follow a declarator: it begins with no `*`.
fn is_direct(unit: &Unit, n: NodeId) -> bool
    requires { Is unit.now is_declarator n }
    ensures { result ≡ is_direct (declarator_at unit.now.forest n) }
{
    !matches!(
        unit.declarator(n),
        Declarator::Pointer { .. } | Declarator::AbstractPointer { .. }
    )
}

/// The depth of a declarator.
fn depth_of(unit: &Unit, n: NodeId) -> u32
    requires { Is unit.now is_declarator n }
    ensures { result ≡ declarator_depth (declarator_at unit.now.forest n) }
{
    unit.depth(n)
}

/// Whether a declarator with brackets or parameters behind this one may stand where its parts have
/// at most so much depth.
pub fn may_go_on(unit: &Unit, n: NodeId, below: u32) -> bool
    requires { Is unit.now is_declarator n }
    ensures { result ≡ (is_direct (declarator_at unit.now.forest n) && nat_le (declarator_depth (declarator_at unit.now.forest n)) below) }
{
    is_direct(unit, n) && depth_of(unit, n) <= below
}

/// A new declarator that ends at a place.
#[inline(always)]
pub fn found_declarator(
    tokens: &Tokens,
    next: u32,
    declarator: Declarator,
    line: u32,
    into: &mut Unit,
) -> Result<Option<(NodeId, u32)>, NoMemory>
    requires place { next ≤ length tokens.now.tokens }
    requires children { HasDeclaratorChildren into.old.forest (length into.old.forest.trees) declarator }
    ensures keeps { Extends into.old into.new }
    ensures ok { AnswersAt into.new is_declarator tokens.now.tokens next result (λ ts. Some (OfDeclarator (declarator_of into.old.forest line declarator), ts)) }
{
    Ok(Some((into.add_declarator(declarator, line)?, next)))
}

/// A new declaration, or a part of one, that ends at a place.
#[inline(always)]
pub fn found_declaration(
    tokens: &Tokens,
    next: u32,
    declaration: Decl,
    line: u32,
    into: &mut Unit,
) -> Result<Option<(NodeId, u32)>, NoMemory>
    requires place { next ≤ length tokens.now.tokens }
    requires children { HasDeclChildren into.old.forest (length into.old.forest.trees) declaration }
    ensures keeps { Extends into.old into.new }
    ensures ok { AnswersAt into.new is_declaration tokens.now.tokens next result (λ ts. Some (OfDeclaration (declaration_of into.old.forest line declaration), ts)) }
{
    Ok(Some((into.add_decl(declaration, line)?, next)))
}

/// A new specifier that ends at a place.
#[inline(always)]
pub fn found_specifier(
    tokens: &Tokens,
    next: u32,
    specifier: Spec,
    line: u32,
    into: &mut Unit,
) -> Result<Option<(NodeId, u32)>, NoMemory>
    requires place { next ≤ length tokens.now.tokens }
    requires children { HasSpecChildren into.old.forest (length into.old.forest.trees) specifier }
    ensures keeps { Extends into.old into.new }
    ensures ok { AnswersAt into.new is_specifier tokens.now.tokens next result (λ ts. Some (OfSpecifier (specifier_of into.old.forest line specifier), ts)) }
{
    Ok(Some((into.add_spec(specifier, line)?, next)))
}

/// A new initializer that ends at a place.
#[inline(always)]
pub fn found_initializer(
    tokens: &Tokens,
    next: u32,
    initializer: Init,
    line: u32,
    into: &mut Unit,
) -> Result<Option<(NodeId, u32)>, NoMemory>
    requires place { next ≤ length tokens.now.tokens }
    requires children { HasInitChildren into.old.forest (length into.old.forest.trees) initializer }
    ensures keeps { Extends into.old into.new }
    ensures ok { AnswersAt into.new is_initializer tokens.now.tokens next result (λ ts. Some (OfInitializer (initializer_of into.old.forest line initializer), ts)) }
{
    Ok(Some((into.add_init(initializer, line)?, next)))
}
