//! Declarations, and the heads of functions.
ghost use Rattle.std.specs.Prelude.{◌≡◌, All, None, IfOk};
ghost use Rattle.pv_tree.specs.Places.{InitDeclarators};
ghost use Rattle.pv_tree.specs.Tables.{tree_at, trees_of, declaration_at, is_declaration, is_specifier, Is, Extends};
ghost use Rattle.pv_tree.specs.TypeNames.{AreTied};
ghost use Rattle.pv_expr_forms.specs.Known.{names_in};
ghost use Rattle.pv_expr_forms.specs.Spelled.{IsSpelled, IsLongest, IsOnly, NothingSpells};
ghost use Rattle.pv_decl_forms.specs.Grammar.{SpellsDeclaration};
ghost use Rattle.pv_decl_forms.specs.Reader.{readers, after_specifiers, declaration, type_name, declared_from};
ghost use Rattle.pv_decl_forms.specs.Sources.{Reads, ReadsRow};
ghost use Rattle.pv_decl.specs.Sources.{IsReady};

use crate::declarations::Declarations;
use crate::lists::ParameterLists;
use crate::word_names::alone;
use indexmap::IndexSet;
use pv_decl_forms::{
    Form, Part, Sign, after, declaration_of, opens_block, parameter_of, type_name_of,
};
use pv_expr_forms::{Source, line_at};
use pv_token::{NoMemory, Tokens};
use pv_tree::{NodeId, TypeReader, Unit};

impl<R: TypeReader> Declarations<'_, R> {
    // A declaration, or the head of a function, whose specifiers end at a place (C17 6.7p1, 6.9.1p1).
    fn specified(
        &self,
        at: u32,
        specs: &[NodeId],
        line: u32,
        below: u32,
        into: &mut Unit,
    ) -> Result<Option<(NodeId, u32)>, NoMemory>
        requires ready { IsReady R.types self.now into.old at }
        requires specs { All (λ n. Is into.old is_specifier n) specs.now }
        ensures { Reads R.types self.now.source at into.old into.new is_declaration result (λ names. after_specifiers (readers names below) line (trees_of into.old.forest specs.now)) }
    {
        if after(self.source.tokens, at, Sign::Semicolon).is_some() {
            return declaration_of(self.source.tokens, at, specs, &[], line, into);
        }
        let Some((declarator, end)) = self.read(Part::Declarator(Form::Named), at, below, into)?
        else {
            return Ok(None);
        };
        if opens_block(self.source.tokens, end) {
            return parameter_of(
                self.source.tokens,
                at,
                specs,
                Some((declarator, end)),
                line,
                into,
            );
        }
        let here = line_at(self.source.tokens, at);
        let Some((first, behind)) = self.initialized(end, declarator, here, below, into)? else {
            return Ok(None);
        };
        let (declared, last) = self.declared(behind, first, below, into)?;
        declaration_of(self.source.tokens, last, specs, &declared, line, into)
    }

    // An init-declarator, and the place behind it (C17 6.7p1).
    fn init_declarator(
        &self,
        at: u32,
        depth: u32,
        into: &mut Unit,
    ) -> Result<Option<(NodeId, u32)>, NoMemory>
        requires { IsReady R.types self.now into.old at }
        ensures { Reads R.types self.now.source at into.old into.new is_declaration result (λ names. readers names depth InitDeclarators) }
    {
        let line = line_at(self.source.tokens, at);
        match self.read(Part::Declarator(Form::Named), at, depth, into)? {
            Some((declarator, end)) => self.initialized(end, declarator, line, depth, into),
            None => Ok(None),
        }
    }

    // The init-declarators from the first on, which ends at a place, and the place behind them.
    fn declared(
        &self,
        at: u32,
        first: NodeId,
        below: u32,
        into: &mut Unit,
    ) -> Result<(Vec<NodeId>, u32), NoMemory>
        requires ready { IsReady R.types self.now into.old at }
        requires first { Is into.old is_declaration first }
        ensures { ReadsRow R.types self.now.source at into.old into.new is_declaration result (λ names. declared_from (readers names below) (tree_at into.old.forest first)) }
    {
        let mut declared = Vec::new(*self.source.typedefs.allocator());
        declared.push(first)?;
        let mut behind = at;
        loop {
            let Some(next) = after(self.source.tokens, behind, Sign::Comma) else {
                return Ok((declared, behind));
            };
            let Some((found, end)) = self.init_declarator(next, below, into)? else {
                return Ok((declared, behind));
            };
            declared.push(found)?;
            behind = end;
        }
    }

    fn declaration(
        &self,
        at: u32,
        depth: u32,
        into: &mut Unit,
    ) -> Result<Option<(NodeId, u32)>, NoMemory>
        requires { IsReady R.types self.now into.old at }
        ensures { Reads R.types self.now.source at into.old into.new is_declaration result (λ names. declaration names depth) }
    {
        if depth == 0 {
            return Ok(None);
        }
        let line = line_at(self.source.tokens, at);
        let (specs, next) = self.row(Part::Specifier, at, depth - 1, into)?;
        if specs.is_empty() {
            return Ok(None);
        }
        self.specified(next, &specs, line, depth - 1, into)
    }

    // The type name at a place, and the place behind it (C17 6.7.7), by its specifiers and its declarator.
    fn specified_name(
        &self,
        at: u32,
        depth: u32,
        into: &mut Unit,
    ) -> Result<Option<(NodeId, u32)>, NoMemory>
        requires { IsReady R.types self.now into.old at }
        ensures { Reads R.types self.now.source at into.old into.new is_declaration result (λ names. type_name names depth) }
    {
        let line = line_at(self.source.tokens, at);
        let (specs, next) = self.row(Part::Specifier, at, depth, into)?;
        if specs.is_empty() {
            return Ok(None);
        }
        let declarator = self.read(Part::Declarator(Form::Abstract), next, depth, into)?;
        type_name_of(self.source.tokens, next, &specs, declarator, line, into)
    }

    /// The type name at a place, and the place behind it (C17 6.7.7). Most are one word, as in a cast to `int`.
    pub(crate) fn type_name(
        &self,
        at: u32,
        depth: u32,
        into: &mut Unit,
    ) -> Result<Option<(NodeId, u32)>, NoMemory>
        requires { IsReady R.types self.now into.old at }
        ensures { Reads R.types self.now.source at into.old into.new is_declaration result (λ names. type_name names depth) }
    {
        match alone(self.source.tokens, at) {
            Some((token, next)) => self.word_name(at, token, next, into),
            None => self.specified_name(at, depth, into),
        }
    }
}

/// The declaration that begins at token number `at`, to its `;` (C17 6.7), and the number of the
/// token behind it. Directly before a `{`, it is the specifiers and the declarator of a function
/// (C17 6.9.1), as a `Decl::Parameter`.
///
/// Of the trees of at most `depth` levels of nesting that spell a run of the tokens from there, it
/// is the one with the longest run, and the only one that spells that run. `None` comes exactly
/// where there is no such tree. `types` are the numbers of the typedef names, and `reader` has the
/// type names, as nodes of `into`. The new nodes are added to `into`, also those that turn out to
/// be part of no answer. The error is want of memory, or that `into` is full.
pub fn declaration<R: TypeReader>(
    t: &Tokens,
    at: u32,
    depth: u32,
    types: &IndexSet<u32>,
    into: &mut Unit,
    reader: &R,
) -> Result<Option<(NodeId, u32)>, NoMemory>
    requires { AreTied (R.types reader.now) into.old t.now.tokens }
    // Older nodes stay, also on a refusal.
    ensures keeps { Extends into.old into.new }
    // What is found spells the tokens up to the place.
    ensures found { let spells = SpellsDeclaration (names_in types.now (R.types reader.now) into.old t.now.tokens) depth t.now.tokens at in
        IfOk result (λ r. IsSpelled spells (Is into.new is_declaration) (declaration_at into.new.forest) t.now.tokens at r) }
    // No tree spells more.
    ensures longest { let spells = SpellsDeclaration (names_in types.now (R.types reader.now) into.old t.now.tokens) depth t.now.tokens at in
        IfOk result (λ r. IsLongest spells t.now.tokens at r) }
    // No other tree spells the same.
    ensures only { let spells = SpellsDeclaration (names_in types.now (R.types reader.now) into.old t.now.tokens) depth t.now.tokens at in
        IfOk result (λ r. IsOnly spells (declaration_at into.new.forest) r) }
    // Where nothing is found, no tree spells anything.
    ensures none { let spells = SpellsDeclaration (names_in types.now (R.types reader.now) into.old t.now.tokens) depth t.now.tokens at in
        IfOk result (λ r. r ≡ None → NothingSpells spells t.now.tokens at) }
{
    if at > t.len() {
        return Ok(None);
    }
    let lists = ParameterLists::new(*types.allocator(), 0);
    let source = Source {
        tokens: t,
        typedefs: types,
        reader,
    };
    let declarations = Declarations {
        source,
        lists: &lists,
    };
    declarations.declaration(at, depth, into)
}
