//! Type names of one word.
ghost use Rattle.std.specs.Prelude.{◌≡◌, ◌≤◌, ◌∷◌, [], ℕ, Bool, List, true, length, drop, Some, None, IfSome, is_some};
ghost use Rattle.pv_token.specs.declared.token_table.Token.{Token};
ghost use Rattle.pv_token.specs.declared.token_table.TokenKind.TheVariants as kind;
ghost use Rattle.pv_tree.specs.Nodes.{specifier_of};
ghost use Rattle.pv_tree.specs.Places.{is_plain_word};
ghost use Rattle.pv_tree.specs.Syntax.{Keyword, TypeName, OfDeclaration, Absent};
ghost use Rattle.pv_tree.specs.Tables.{Forest, tree_at, trees_of, is_declaration, is_specifier, Is};
ghost use Rattle.pv_tree.specs.TreeLines.{tree_line};
ghost use Rattle.pv_expr_forms.specs.Reader.{after, is_close};
ghost use Rattle.pv_expr_forms.specs.Sources.{known_names};
ghost use Rattle.pv_decl_forms.specs.Answers.{Answers};
ghost use Rattle.pv_decl_forms.specs.Parts.{tag_word_of, plain_of};
ghost use Rattle.pv_decl_forms.specs.Reader.{type_name};
ghost use Rattle.pv_decl_forms.specs.Sources.{Reads};
ghost use Rattle.pv_decl.specs.Sources.{IsReady};

use crate::declarations::Declarations;
use pv_decl_forms::{Sign, after, plain, tag_word, type_word_of};
use pv_expr_forms::peek;
use pv_token::{NoMemory, Token, TokenKind, Tokens, Word};
use pv_tree::{Decl, NodeId, Spec, TypeReader, Unit};

/// The token at a place and the place behind it, where a `)` follows, and the token is no keyword before a tag.
pub(crate) fn alone(tokens: &Tokens, at: u32) -> Option<(Token, u32)>
    requires { at ≤ length tokens.now.tokens }
    ensures here { IfSome result (λ x. drop at tokens.now.tokens ≡ x.0 ∷ drop x.1 tokens.now.tokens) }
    ensures place { IfSome result (λ x. x.1 ≤ length tokens.now.tokens) }
    ensures plain { IfSome result (λ x. tag_word_of x.0.kind ≡ None) }
    ensures closed { IfSome result (λ x. is_some (after is_close (drop x.1 tokens.now.tokens)) ≡ true) }
{
    let Some(token) = peek(tokens, at) else {
        return None;
    };
    match tag_word(token.kind) {
        Some(_) => None,
        None => match after(tokens, at + 1, Sign::CloseParen) {
            Some(_) => Some((token, at + 1)),
            None => None,
        },
    }
}

/// Whether a specifier is this keyword, one of those that name a type by themselves (C17 6.7.2p2).
fn is_word(spec: Spec, word: Word) -> bool
    ensures same { result ≡ true → (f : Forest) (line : ℕ) → specifier_of f line spec ≡ Keyword line word }
    ensures plain { result ≡ true → is_plain_word word ≡ true }
{
    match spec {
        Spec::Void => matches!(word, Word::Void),
        Spec::Char => matches!(word, Word::Char),
        Spec::Short => matches!(word, Word::Short),
        Spec::Int => matches!(word, Word::Int),
        Spec::Long => matches!(word, Word::Long),
        Spec::Signed => matches!(word, Word::Signed),
        Spec::Unsigned => matches!(word, Word::Unsigned),
        Spec::Bool => matches!(word, Word::Bool),
        _ => false,
    }
}

/// Whether a node is this keyword, on this line.
fn is_word_on(unit: &Unit, n: NodeId, word: Word, line: u32) -> bool
    requires { Is unit.now is_specifier n }
    ensures { result ≡ true → (is_type : ℕ → Bool) (ts : List Token) → plain_of is_type line (kind.Word word) ts ≡ Some (tree_at unit.now.forest n, ts) }
{
    let here = unit.line(n);
    if here != line {
        return false;
    }
    let spec = unit.spec(n);
    is_word(spec, word)
}

/// The specifier of a type name that is one specifier by itself (C17 6.7.7p1).
fn lone_specifier(unit: &Unit, name: NodeId) -> Option<NodeId>
    requires { Is unit.now is_declaration name }
    ensures specifier { IfSome result (λ n. Is unit.now is_specifier n) }
    ensures tree { IfSome result (λ n. tree_at unit.now.forest name ≡ OfDeclaration (TypeName (tree_line (tree_at unit.now.forest name)) (trees_of unit.now.forest (n ∷ [])) Absent)) }
{
    let Decl::TypeName { specs, declarator } = unit.decl(name) else {
        return None;
    };
    if declarator.is_some() {
        return None;
    }
    let nodes = unit.list(specs);
    if nodes.len() == 1 {
        return Some(nodes[0]);
    }
    None
}

/// The specifier of a type name that is this keyword by itself, on this line.
fn word_of(unit: &Unit, name: NodeId, word: Word, line: u32) -> Option<NodeId>
    requires { Is unit.now is_declaration name }
    ensures specifier { IfSome result (λ n. Is unit.now is_specifier n) }
    ensures word { IfSome result (λ n. (is_type : ℕ → Bool) (ts : List Token) → plain_of is_type line (kind.Word word) ts ≡ Some (tree_at unit.now.forest n, ts)) }
    ensures tree { IfSome result (λ n. tree_at unit.now.forest name ≡ OfDeclaration (TypeName line (trees_of unit.now.forest (n ∷ [])) Absent)) }
{
    let here = unit.line(name);
    if here != line {
        return None;
    }
    let Some(spec) = lone_specifier(unit, name) else {
        return None;
    };
    if is_word_on(unit, spec, word, line) {
        return Some(spec);
    }
    None
}

impl<R: TypeReader> Declarations<'_, R> {
    /// The type name of the next cast, as in `(int)(int)a`, where it is the same keyword on the same line: what is read
    /// here is the same tree, so that its node serves for both, and no memory is taken for another one.
    fn word_again(&self, at: u32, token: Token, next: u32, into: &Unit) -> Option<NodeId>
        requires ready { IsReady R.types self.now into.now at }
        requires here { drop at self.now.source.tokens.now.tokens ≡ token ∷ drop next self.now.source.tokens.now.tokens }
        requires place { next ≤ length self.now.source.tokens.now.tokens }
        requires plain { tag_word_of token.kind ≡ None }
        requires closed { is_some (after is_close (drop next self.now.source.tokens.now.tokens)) ≡ true }
        ensures { IfSome result (λ n. (depth : ℕ) → Answers into.now is_declaration self.now.source.tokens.now.tokens (Some (n, next))
            (type_name (known_names R.types self.now.source into.now) depth (drop at self.now.source.tokens.now.tokens))) }
    {
        let TokenKind::Word(word) = token.kind else {
            return None;
        };
        let Some((name, _)) = self.source.reader.type_name(next.saturating_add(2)) else {
            return None;
        };
        match word_of(into, name, word, token.line) {
            Some(_) => Some(name),
            None => None,
        }
    }

    /// The type name at a place, as `word_name` has it, of nodes that are made for it. No list of specifiers is made, and
    /// no declarator looked for.
    fn word_made(
        &self,
        at: u32,
        token: Token,
        next: u32,
        into: &mut Unit,
    ) -> Result<Option<(NodeId, u32)>, NoMemory>
        requires ready { IsReady R.types self.now into.old at }
        requires here { drop at self.now.source.tokens.now.tokens ≡ token ∷ drop next self.now.source.tokens.now.tokens }
        requires place { next ≤ length self.now.source.tokens.now.tokens }
        requires plain { tag_word_of token.kind ≡ None }
        requires closed { is_some (after is_close (drop next self.now.source.tokens.now.tokens)) ≡ true }
        ensures { (depth : ℕ) → Reads R.types self.now.source at into.old into.new is_declaration result (λ names. type_name names depth) }
    {
        let word = plain(self.source.tokens, self.source.typedefs, next, token, into)?;
        let Some((spec, end)) = word else {
            return Ok(None);
        };
        type_word_of(self.source.tokens, end, spec, token.line, into)
    }

    /// The type name at a place, whose first token, which ends at `next`, stands alone (C17 6.7.7p1): it is one word, if
    /// that is a specifier.
    pub(crate) fn word_name(
        &self,
        at: u32,
        token: Token,
        next: u32,
        into: &mut Unit,
    ) -> Result<Option<(NodeId, u32)>, NoMemory>
        requires ready { IsReady R.types self.now into.old at }
        requires here { drop at self.now.source.tokens.now.tokens ≡ token ∷ drop next self.now.source.tokens.now.tokens }
        requires place { next ≤ length self.now.source.tokens.now.tokens }
        requires plain { tag_word_of token.kind ≡ None }
        requires closed { is_some (after is_close (drop next self.now.source.tokens.now.tokens)) ≡ true }
        ensures { (depth : ℕ) → Reads R.types self.now.source at into.old into.new is_declaration result (λ names. type_name names depth) }
    {
        if let Some(name) = self.word_again(at, token, next, into) {
            return Ok(Some((name, next)));
        }
        self.word_made(at, token, next, into)
    }
}
