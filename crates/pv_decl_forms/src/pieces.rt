//! Parts of declarations, made once the parts within them are read.
ghost use Rattle.std.specs.Prelude.{◌≡◌, ℕ, Bool, List, ◌∷◌, [], ◌≤◌, None, IfSome, All, length, drop, IfOk, nat_eq, option_and_then};
ghost use Rattle.pv_token.specs.declared.token_table.Token.{Token};
ghost use Rattle.indexmap.specs.IndexSet.{contains};
ghost use Rattle.pv_tree.specs.Children.{HasSpecChildren, HasDeclaratorChildren};
ghost use Rattle.pv_tree.specs.Nodes.{specifier_of, declarator_of};
ghost use Rattle.pv_tree.specs.Syntax.{OfDeclarator, Declaration, Parameter, TypeName, Composite, Enumeration, Braces, OfSpecifier, OfInitializer};
ghost use Rattle.pv_tree.specs.Tables.{Forest, HasList, trees_of, trees_at, optional_at, is_declaration, is_declarator, is_expression, is_initializer, is_specifier, Is, Extends, IsListOf};
ghost use Rattle.pv_decl_forms.specs.Answers.{piece_from, IsThere, Answers, AnswersAt};
ghost use Rattle.pv_decl_forms.specs.Declarators.{behind_size, variadic_at, with_parameters, pointer_tree, in_parentheses};
ghost use Rattle.pv_decl_forms.specs.Parts.{word_of_composite, word_of_tag, keyword_of, plain_of, named_of, array_of, function_of};
ghost use Rattle.pv_decl_forms.specs.Pieces.{part_if_any};
ghost use Rattle.pv_decl_forms.specs.Reader.{listed_in_braces, row_in_braces, tag_alone, made_of, semicolon_behind, with_members};

use crate::forms::{CompositeWord, Form, Sign, TagWord};
use crate::nodes::{
    found_declaration, found_declarator, found_initializer, found_specifier, is_named,
};
use crate::tokens::{after, comma_at, ellipsis_at};
use indexmap::IndexSet;
use pv_expr_forms::is_type;
use pv_token::{NoMemory, Token, TokenKind, Tokens, Word};
use pv_tree::{Decl, Declarator, Init, ListId, NodeId, Spec, Unit};

// ---- specifiers

/// The specifier that a keyword is by itself (C17 6.7.1 to 6.7.3).
fn keyword(word: Word) -> Option<Spec>
    ensures { result ≡ keyword_of word }
{
    match word {
        Word::Typedef => Some(Spec::Typedef),
        Word::Extern => Some(Spec::Extern),
        Word::Static => Some(Spec::Static),
        Word::Const => Some(Spec::Const),
        Word::Void => Some(Spec::Void),
        Word::Char => Some(Spec::Char),
        Word::Short => Some(Spec::Short),
        Word::Int => Some(Spec::Int),
        Word::Long => Some(Spec::Long),
        Word::Signed => Some(Spec::Signed),
        Word::Unsigned => Some(Spec::Unsigned),
        Word::Bool => Some(Spec::Bool),
        _ => None,
    }
}

/// A keyword or a typedef name, whose token ends at a place (C17 6.7.1 to 6.7.3, 6.7.8).
#[inline(always)]
#[tactic(auto, using(pv_tree::proofs::Kept::extends_same), unfolding(crate::specs::Parts::plain_of))]
pub fn plain(
    tokens: &Tokens,
    typedefs: &IndexSet<u32>,
    at: u32,
    token: Token,
    into: &mut Unit,
) -> Result<Option<(NodeId, u32)>, NoMemory>
    requires { at ≤ length tokens.now.tokens }
    ensures keeps { Extends into.old into.new }
    ensures ok { AnswersAt into.new is_specifier tokens.now.tokens at result (plain_of (contains nat_eq typedefs.now) token.line token.kind) }
{
    match token.kind {
        TokenKind::Name(name) => {
            if !is_type(typedefs, name) {
                return Ok(None);
            }
            found_specifier(tokens, at, Spec::TypedefName(name), token.line, into)
        }
        TokenKind::Word(word) => match keyword(word) {
            Some(spec) => found_specifier(tokens, at, spec, token.line, into),
            None => Ok(None),
        },
        _ => Ok(None),
    }
}

/// A tag without braces, which ends at a place (C17 6.7.2.3).
#[tactic(auto, using(pv_tree::proofs::Kept::extends_same))]
pub fn tag_alone(
    tokens: &Tokens,
    at: u32,
    word: TagWord,
    tag: Option<u32>,
    line: u32,
    into: &mut Unit,
) -> Result<Option<(NodeId, u32)>, NoMemory>
    requires { at ≤ length tokens.now.tokens }
    ensures keeps { Extends into.old into.new }
    ensures ok { AnswersAt into.new is_specifier tokens.now.tokens at result (tag_alone line (word_of_tag word) tag) }
{
    let Some(name) = tag else {
        return Ok(None);
    };
    let spec = match word {
        TagWord::Composite(CompositeWord::Struct) => Spec::StructTag(name),
        TagWord::Composite(CompositeWord::Union) => Spec::UnionTag(name),
        TagWord::Enum => Spec::EnumTag(name),
    };
    found_specifier(tokens, at, spec, line, into)
}

/// An enumeration, whose enumerators end at a place (C17 6.7.2.2).
#[tactic(auto, using(pv_tree::proofs::Kept::extends_same), unfolding(crate::specs::Reader::listed_in_braces, crate::specs::Reader::brace_closed))]
pub fn enumeration(
    tokens: &Tokens,
    at: u32,
    tag: Option<u32>,
    enumerators: &[NodeId],
    line: u32,
    into: &mut Unit,
) -> Result<Option<(NodeId, u32)>, NoMemory>
    requires place { at ≤ length tokens.now.tokens }
    requires enumerators { All (λ n. Is into.old is_declaration n) enumerators.now }
    ensures keeps { Extends into.old into.new }
    ensures ok { AnswersAt into.new is_specifier tokens.now.tokens at result (λ ts. listed_in_braces (λ trees comma. OfSpecifier (Enumeration line tag trees comma)) (trees_of into.old.forest enumerators.now, ts)) }
{
    if enumerators.is_empty() {
        return Ok(None);
    }
    let (comma, next) = comma_at(tokens, at);
    let Some(end) = after(tokens, next, Sign::CloseBrace) else {
        return Ok(None);
    };
    let enumerators = into.add_list(enumerators)?;
    let spec = Spec::Enum {
        name: tag,
        enumerators,
        comma,
    };
    found_specifier(tokens, end, spec, line, into)
}

// The node of a structure or union.
fn composite_node(word: CompositeWord, tag: Option<u32>, members: ListId) -> Spec
    ensures is { (f : Forest) (line : ℕ) → specifier_of f line result ≡ Composite line (word_of_composite word) tag (trees_at f members) }
    ensures children { (f : Forest) (count : ℕ) → HasList f count is_declaration members → HasSpecChildren f count result }
{
    match word {
        CompositeWord::Struct => Spec::Struct { name: tag, members },
        CompositeWord::Union => Spec::Union { name: tag, members },
    }
}

/// A structure or union, whose members end at a place (C17 6.7.2.1).
#[tactic(auto, using(pv_tree::proofs::Kept::extends_same), unfolding(crate::specs::Reader::row_in_braces))]
pub fn composite(
    tokens: &Tokens,
    at: u32,
    word: CompositeWord,
    tag: Option<u32>,
    members: &[NodeId],
    line: u32,
    into: &mut Unit,
) -> Result<Option<(NodeId, u32)>, NoMemory>
    requires place { at ≤ length tokens.now.tokens }
    requires members { All (λ n. Is into.old is_declaration n) members.now }
    ensures keeps { Extends into.old into.new }
    ensures ok { AnswersAt into.new is_specifier tokens.now.tokens at result (λ ts. row_in_braces (λ trees. OfSpecifier (Composite line (word_of_composite word) tag trees)) (trees_of into.old.forest members.now, ts)) }
{
    if members.is_empty() {
        return Ok(None);
    }
    let Some(end) = after(tokens, at, Sign::CloseBrace) else {
        return Ok(None);
    };
    let members = into.add_list(members)?;
    found_specifier(tokens, end, composite_node(word, tag, members), line, into)
}

// ---- declarators

/// The name of a declarator, which ends at a place (C17 6.7.6p1).
#[tactic(auto, using(pv_tree::proofs::Kept::extends_same), unfolding(crate::specs::Parts::named_of))]
pub fn named(
    tokens: &Tokens,
    typedefs: &IndexSet<u32>,
    at: u32,
    form: Form,
    name: u32,
    line: u32,
    into: &mut Unit,
) -> Result<Option<(NodeId, u32)>, NoMemory>
    requires { at ≤ length tokens.now.tokens }
    ensures keeps { Extends into.old into.new }
    ensures ok { AnswersAt into.new is_declarator tokens.now.tokens at result (named_of (contains nat_eq typedefs.now) form line name) }
{
    if is_type(typedefs, name) || !form.allows_name() {
        return Ok(None);
    }
    found_declarator(tokens, at, Declarator::Name(name), line, into)
}

/// A pointer, whose `*` and words `const` end at a place, and what it stands before, if that can be
/// read (C17 6.7.6.1).
#[tactic(auto, using(pv_tree::proofs::Kept::extends_same), unfolding(crate::specs::Declarators::pointer_tree))]
pub fn pointed(
    tokens: &Tokens,
    at: u32,
    form: Form,
    consts: u32,
    within: Option<(NodeId, u32)>,
    line: u32,
    into: &mut Unit,
) -> Result<Option<(NodeId, u32)>, NoMemory>
    requires place { at ≤ length tokens.now.tokens }
    requires within { IsThere into.old is_declarator tokens.now.tokens within }
    ensures keeps { Extends into.old into.new }
    ensures ok { AnswersAt into.new is_declarator tokens.now.tokens at result (λ ts. pointer_tree form line consts ts (piece_from into.old.forest tokens.now.tokens within)) }
{
    let Some((inner, end)) = within else {
        if !form.allows_abstract() {
            return Ok(None);
        }
        let pointer = Declarator::AbstractPointer {
            consts,
            declarator: None,
        };
        return found_declarator(tokens, at, pointer, line, into);
    };
    let pointer = if is_named(into, inner) {
        Declarator::Pointer {
            consts,
            declarator: inner,
        }
    } else {
        Declarator::AbstractPointer {
            consts,
            declarator: Some(inner),
        }
    };
    found_declarator(tokens, end, pointer, line, into)
}

/// A declarator in parentheses, if it can be read (C17 6.7.6p6).
#[tactic(auto, using(pv_tree::proofs::Kept::extends_same), unfolding(crate::specs::Declarators::in_parentheses))]
pub fn parenthesized(
    tokens: &Tokens,
    within: Option<(NodeId, u32)>,
    line: u32,
    into: &mut Unit,
) -> Result<Option<(NodeId, u32)>, NoMemory>
    requires { IsThere into.old is_declarator tokens.now.tokens within }
    ensures keeps { Extends into.old into.new }
    ensures ok { IfOk result (λ r. Answers into.new is_declarator tokens.now.tokens r (option_and_then (λ x. in_parentheses line x.0 x.1) (piece_from into.old.forest tokens.now.tokens within))) }
{
    let Some((inner, end)) = within else {
        return Ok(None);
    };
    let Some(next) = after(tokens, end, Sign::CloseParen) else {
        return Ok(None);
    };
    let declarator = if is_named(into, inner) {
        Declarator::Paren(inner)
    } else {
        Declarator::AbstractParen(inner)
    };
    found_declarator(tokens, next, declarator, line, into)
}

/// An array, whose size ends at a place, behind a declarator that may be left out (C17 6.7.6.2).
#[tactic(auto, using(pv_tree::proofs::Kept::extends_same), unfolding(crate::specs::Declarators::behind_size))]
pub fn array_of(
    tokens: &Tokens,
    at: u32,
    left: Option<NodeId>,
    size: Option<NodeId>,
    line: u32,
    into: &mut Unit,
) -> Result<Option<(NodeId, u32)>, NoMemory>
    requires place { at ≤ length tokens.now.tokens }
    requires left { IfSome left (λ n. Is into.old is_declarator n) }
    requires size { IfSome size (λ n. Is into.old is_expression n) }
    ensures keeps { Extends into.old into.new }
    ensures ok { AnswersAt into.new is_declarator tokens.now.tokens at result (λ ts. behind_size (array_of line (optional_at into.old.forest left)) (optional_at into.old.forest size, ts)) }
{
    let Some(next) = after(tokens, at, Sign::CloseBracket) else {
        return Ok(None);
    };
    let array = match left {
        Some(declarator) if is_named(into, declarator) => Declarator::Array { declarator, size },
        declarator => Declarator::AbstractArray { declarator, size },
    };
    found_declarator(tokens, next, array, line, into)
}

// Whether `, ...` stands at a place behind some parameters, and the place behind it if so.
#[tactic(auto, unfolding(crate::specs::Declarators::variadic_at))]
fn variadic_at(tokens: &Tokens, at: u32, parameters: &[NodeId]) -> (bool, u32)
    requires { at ≤ length tokens.now.tokens }
    ensures is { (f : Forest) → ◌≡◌ {A = Bool × List Token} (result.0, drop result.1 tokens.now.tokens) (variadic_at (trees_of f parameters.now) (drop at tokens.now.tokens)) }
    ensures place { result.1 ≤ length tokens.now.tokens }
{
    if parameters.is_empty() {
        return (false, at);
    }
    ellipsis_at(tokens, at)
}

/// The node of a function behind a declarator that may be left out.
pub fn function_node(
    unit: &Unit,
    left: Option<NodeId>,
    parameters: ListId,
    variadic: bool,
) -> Declarator
    requires { IfSome left (λ n. Is unit.now is_declarator n) }
    ensures is { (line : ℕ) → OfDeclarator (declarator_of unit.now.forest line result) ≡ function_of line (optional_at unit.now.forest left) (trees_at unit.now.forest parameters) variadic }
    ensures children { IsListOf unit.now is_declaration parameters → HasDeclaratorChildren unit.now.forest (length unit.now.forest.trees) result }
{
    match left {
        Some(declarator) if is_named(unit, declarator) => Declarator::Function {
            declarator,
            parameters,
            variadic,
        },
        declarator => Declarator::AbstractFunction {
            declarator,
            parameters,
            variadic,
        },
    }
}

/// A function, whose parameters end at a place, behind a declarator that may be left out
/// (C17 6.7.6.3).
#[tactic(auto, using(pv_tree::proofs::Kept::extends_same), unfolding(crate::specs::Declarators::with_parameters, crate::specs::Declarators::behind_parameters))]
pub fn function_of(
    tokens: &Tokens,
    at: u32,
    left: Option<NodeId>,
    parameters: &[NodeId],
    line: u32,
    into: &mut Unit,
) -> Result<Option<(NodeId, u32)>, NoMemory>
    requires place { at ≤ length tokens.now.tokens }
    requires left { IfSome left (λ n. Is into.old is_declarator n) }
    requires parameters { All (λ n. Is into.old is_declaration n) parameters.now }
    ensures keeps { Extends into.old into.new }
    ensures ok { AnswersAt into.new is_declarator tokens.now.tokens at result (λ ts. with_parameters (function_of line (optional_at into.old.forest left)) (trees_of into.old.forest parameters.now, ts)) }
{
    let (variadic, end) = variadic_at(tokens, at, parameters);
    let Some(next) = after(tokens, end, Sign::CloseParen) else {
        return Ok(None);
    };
    let parameters = into.add_list(parameters)?;
    let function = function_node(into, left, parameters, variadic);
    found_declarator(tokens, next, function, line, into)
}

// ---- declarations

/// A member declaration, whose declarators end at a place (C17 6.7.2.1p1).
#[tactic(auto, using(pv_tree::proofs::Kept::extends_same), unfolding(crate::specs::Reader::with_members, crate::specs::Reader::semicolon_behind))]
pub fn member_of(
    tokens: &Tokens,
    at: u32,
    specs: &[NodeId],
    declarators: &[NodeId],
    line: u32,
    into: &mut Unit,
) -> Result<Option<(NodeId, u32)>, NoMemory>
    requires place { at ≤ length tokens.now.tokens }
    requires specs { All (λ n. Is into.old is_specifier n) specs.now }
    requires declarators { All (λ n. Is into.old is_declarator n) declarators.now }
    ensures keeps { Extends into.old into.new }
    ensures ok { AnswersAt into.new is_declaration tokens.now.tokens at result (λ ts. with_members line (trees_of into.old.forest specs.now) (trees_of into.old.forest declarators.now, ts)) }
{
    if declarators.is_empty() {
        return Ok(None);
    }
    let Some(end) = after(tokens, at, Sign::Semicolon) else {
        return Ok(None);
    };
    let specs = into.add_list(specs)?;
    let declarators = into.add_list(declarators)?;
    let member = Decl::Member { specs, declarators };
    found_declaration(tokens, end, member, line, into)
}

/// A parameter, whose specifiers end at a place, and its declarator, if that can be read
/// (C17 6.7.6p1).
pub fn parameter_of(
    tokens: &Tokens,
    at: u32,
    specs: &[NodeId],
    declarator: Option<(NodeId, u32)>,
    line: u32,
    into: &mut Unit,
) -> Result<Option<(NodeId, u32)>, NoMemory>
    requires place { at ≤ length tokens.now.tokens }
    requires specs { All (λ n. Is into.old is_specifier n) specs.now }
    requires declarator { IsThere into.old is_declarator tokens.now.tokens declarator }
    ensures keeps { Extends into.old into.new }
    ensures ok { let old = into.old.forest in
        AnswersAt into.new is_declaration tokens.now.tokens at result (λ ts. made_of (Parameter line) (trees_of old specs.now) (part_if_any ts (piece_from old tokens.now.tokens declarator))) }
{
    let specs = into.add_list(specs)?;
    let (declarator, end) = match declarator {
        Some((declarator, end)) => (Some(declarator), end),
        None => (None, at),
    };
    let parameter = Decl::Parameter { specs, declarator };
    found_declaration(tokens, end, parameter, line, into)
}

/// A type name, whose specifiers end at a place, and its abstract declarator, if that can be read
/// (C17 6.7.7p1).
#[inline(always)]
pub fn type_name_of(
    tokens: &Tokens,
    at: u32,
    specs: &[NodeId],
    declarator: Option<(NodeId, u32)>,
    line: u32,
    into: &mut Unit,
) -> Result<Option<(NodeId, u32)>, NoMemory>
    requires place { at ≤ length tokens.now.tokens }
    requires specs { All (λ n. Is into.old is_specifier n) specs.now }
    requires declarator { IsThere into.old is_declarator tokens.now.tokens declarator }
    ensures keeps { Extends into.old into.new }
    ensures ok { let old = into.old.forest in
        AnswersAt into.new is_declaration tokens.now.tokens at result (λ ts. made_of (TypeName line) (trees_of old specs.now) (part_if_any ts (piece_from old tokens.now.tokens declarator))) }
{
    let specs = into.add_list(specs)?;
    let (declarator, end) = match declarator {
        Some((declarator, end)) => (Some(declarator), end),
        None => (None, at),
    };
    let type_name = Decl::TypeName { specs, declarator };
    found_declaration(tokens, end, type_name, line, into)
}

/// A type name of one specifier, which ends at a place, without a declarator (C17 6.7.7p1).
#[inline(always)]
pub fn type_word_of(
    tokens: &Tokens,
    at: u32,
    spec: NodeId,
    line: u32,
    into: &mut Unit,
) -> Result<Option<(NodeId, u32)>, NoMemory>
    requires place { at ≤ length tokens.now.tokens }
    requires spec { Is into.old is_specifier spec }
    ensures keeps { Extends into.old into.new }
    ensures ok { let old = into.old.forest in
        AnswersAt into.new is_declaration tokens.now.tokens at result (λ ts. made_of (TypeName line) (trees_of old (spec ∷ [])) (part_if_any ts (piece_from old tokens.now.tokens None))) }
{
    let specs = into.add_single(spec)?;
    let type_name = Decl::TypeName {
        specs,
        declarator: None,
    };
    found_declaration(tokens, at, type_name, line, into)
}

/// A declaration, whose init-declarators end at a place (C17 6.7p1).
#[tactic(auto, using(pv_tree::proofs::Kept::extends_same), unfolding(crate::specs::Reader::semicolon_behind))]
pub fn declaration_of(
    tokens: &Tokens,
    at: u32,
    specs: &[NodeId],
    declared: &[NodeId],
    line: u32,
    into: &mut Unit,
) -> Result<Option<(NodeId, u32)>, NoMemory>
    requires place { at ≤ length tokens.now.tokens }
    requires specs { All (λ n. Is into.old is_specifier n) specs.now }
    requires declared { All (λ n. Is into.old is_declaration n) declared.now }
    ensures keeps { Extends into.old into.new }
    ensures ok { AnswersAt into.new is_declaration tokens.now.tokens at result (semicolon_behind (Declaration line (trees_of into.old.forest specs.now) (trees_of into.old.forest declared.now))) }
{
    let Some(end) = after(tokens, at, Sign::Semicolon) else {
        return Ok(None);
    };
    let specs = into.add_list(specs)?;
    let declared = into.add_list(declared)?;
    let declaration = Decl::Declaration { specs, declared };
    found_declaration(tokens, end, declaration, line, into)
}

/// Initializers in braces, which end at a place (C17 6.7.9p1).
#[tactic(auto, using(pv_tree::proofs::Kept::extends_same), unfolding(crate::specs::Reader::listed_in_braces, crate::specs::Reader::brace_closed))]
pub fn braces_of(
    tokens: &Tokens,
    at: u32,
    inits: &[NodeId],
    line: u32,
    into: &mut Unit,
) -> Result<Option<(NodeId, u32)>, NoMemory>
    requires place { at ≤ length tokens.now.tokens }
    requires inits { All (λ n. Is into.old is_initializer n) inits.now }
    ensures keeps { Extends into.old into.new }
    ensures ok { AnswersAt into.new is_initializer tokens.now.tokens at result (λ ts. listed_in_braces (λ trees comma. OfInitializer (Braces line trees comma)) (trees_of into.old.forest inits.now, ts)) }
{
    if inits.is_empty() {
        return Ok(None);
    }
    let (comma, next) = comma_at(tokens, at);
    let Some(end) = after(tokens, next, Sign::CloseBrace) else {
        return Ok(None);
    };
    let inits = into.add_list(inits)?;
    found_initializer(tokens, end, Init::Braces { inits, comma }, line, into)
}
