//! Reading the parts of declarations from the left, each with the parts within it.
ghost use Rattle.std.specs.Prelude.{drop, Some, IfSome, option_and_then};
ghost use Rattle.pv_tree.specs.Places.{Specifiers, Members, Parameters};
ghost use Rattle.pv_tree.specs.Syntax.{NoTrees};
ghost use Rattle.pv_tree.specs.Tables.{tree_at, optional_at, is_declaration, is_declarator, is_specifier, Is};
ghost use Rattle.pv_expr_forms.specs.Reader.{after};
ghost use Rattle.pv_decl_forms.specs.declared.forms.Part.TheVariants as part;
ghost use Rattle.pv_decl_forms.specs.Declarators.{consts_in_row, longest_declarator, head, longer_declarator, behind_paren, parameters_behind, pointer};
ghost use Rattle.pv_decl_forms.specs.Parts.{kind_of_part, place_of_part, word_of_tag, within, function_of};
ghost use Rattle.pv_decl_forms.specs.Pieces.{is_open_brace, row, comma_list};
ghost use Rattle.pv_decl_forms.specs.Reader.{readers, behind_open_brace};
ghost use Rattle.pv_decl_forms.specs.Sources.{Reads, ReadsRow};
ghost use Rattle.pv_decl.specs.Sources.{IsReady};

use crate::declarations::Declarations;
use pv_decl_forms::{
    DEPTH_LIMIT, Form, Opening, Part, Sign, TagWord, after, composite, consts_in_row, enumeration,
    function_of, may_go_on, member_of, named, opening_of, opens_parameters, parameter_of,
    parenthesized, plain, pointed, tag_alone, tag_at, tag_word,
};
use pv_expr_forms::{line_at, peek};
use pv_token::NoMemory;
use pv_tree::{NodeId, TypeReader, Unit};

impl<R: TypeReader> Declarations<'_, R> {
    /// The longest part of at most so much depth that begins at a place, and the place behind it.
    #[cycle(reading)]
    pub(crate) fn read(
        &self,
        part: Part,
        at: u32,
        depth: u32,
        into: &mut Unit,
    ) -> Result<Option<(NodeId, u32)>, NoMemory>
        requires { IsReady R.types self.now into.old at }
        ensures { Reads R.types self.now.source at into.old into.new (kind_of_part part) result (λ names. readers names depth (place_of_part part)) }
    {
        match part {
            Part::Specifier => self.specifier(at, depth, into),
            Part::Member => self.member(at, depth, into),
            Part::Enumerator => self.enumerator(at, depth, into),
            Part::Parameter => self.parameter(at, depth, into),
            Part::Declarator(form) => self.declarator(at, form, depth, into),
        }
    }

    /// The parts in a row from a place on, before what can't be read, and the place behind them.
    #[cycle(reading)]
    pub(crate) fn row(
        &self,
        part: Part,
        at: u32,
        depth: u32,
        into: &mut Unit,
    ) -> Result<(Vec<NodeId>, u32), NoMemory>
        requires { IsReady R.types self.now into.old at }
        ensures { ReadsRow R.types self.now.source at into.old into.new (kind_of_part part) result (λ names. row (readers names depth (place_of_part part)) NoTrees) }
    {
        let mut parts = Vec::new(*self.source.typedefs.allocator());
        let mut next = at;
        loop {
            let Some((found, end)) = self.read(part, next, depth, into)? else {
                return Ok((parts, next));
            };
            parts.push(found)?;
            next = end;
        }
    }

    /// The parts with commas between them from a place on, and the place behind them.
    #[cycle(reading)]
    pub(crate) fn listed(
        &self,
        part: Part,
        at: u32,
        depth: u32,
        into: &mut Unit,
    ) -> Result<(Vec<NodeId>, u32), NoMemory>
        requires { IsReady R.types self.now into.old at }
        ensures { ReadsRow R.types self.now.source at into.old into.new (kind_of_part part) result (λ names. comma_list (readers names depth (place_of_part part))) }
    {
        let mut parts = Vec::new(*self.source.typedefs.allocator());
        let mut behind = at;
        let mut next = at;
        loop {
            let Some((found, end)) = self.read(part, next, depth, into)? else {
                return Ok((parts, behind));
            };
            parts.push(found)?;
            behind = end;
            match after(self.source.tokens, end, Sign::Comma) {
                Some(following) => next = following,
                None => return Ok((parts, behind)),
            }
        }
    }

    // A specifier (C17 6.7p1). Where the braces behind `struct`, `union` or `enum` can't be read, it
    // is the tag alone (C17 6.7.2.1 to 6.7.2.3).
    #[cycle(reading)]
    fn specifier(
        &self,
        at: u32,
        depth: u32,
        into: &mut Unit,
    ) -> Result<Option<(NodeId, u32)>, NoMemory>
        requires { IsReady R.types self.now into.old at }
        ensures { Reads R.types self.now.source at into.old into.new is_specifier result (λ names. readers names depth Specifiers) }
    {
        let Some(token) = peek(self.source.tokens, at) else {
            return Ok(None);
        };
        let Some(word) = tag_word(token.kind) else {
            return plain(
                self.source.tokens,
                self.source.typedefs,
                at + 1,
                token,
                into,
            );
        };
        let (tag, next) = tag_at(self.source.tokens, at + 1);
        match self.braced(next, word, tag, token.line, depth, into)? {
            Some(found) => Ok(Some(found)),
            None => tag_alone(self.source.tokens, next, word, tag, token.line, into),
        }
    }

    // The braces of a structure, union or enumeration at a place, if they can be read
    // (C17 6.7.2.1, 6.7.2.2).
    #[cycle(reading)]
    fn braced(
        &self,
        at: u32,
        word: TagWord,
        tag: Option<u32>,
        line: u32,
        depth: u32,
        into: &mut Unit,
    ) -> Result<Option<(NodeId, u32)>, NoMemory>
        requires { IsReady R.types self.now into.old at }
        ensures { Reads R.types self.now.source at into.old into.new is_specifier result (λ names ts. option_and_then (behind_open_brace (within names depth) line (word_of_tag word) tag) (after is_open_brace ts)) }
    {
        let Some(inside) = after(self.source.tokens, at, Sign::OpenBrace) else {
            return Ok(None);
        };
        if depth == 0 {
            return Ok(None);
        }
        match word {
            TagWord::Enum => {
                let (enumerators, end) = self.listed(Part::Enumerator, inside, depth - 1, into)?;
                enumeration(self.source.tokens, end, tag, &enumerators, line, into)
            }
            TagWord::Composite(composite_word) => {
                let (members, end) = self.row(Part::Member, inside, depth - 1, into)?;
                composite(
                    self.source.tokens,
                    end,
                    composite_word,
                    tag,
                    &members,
                    line,
                    into,
                )
            }
        }
    }

    // A member declaration, to behind its `;` (C17 6.7.2.1p1).
    #[cycle(reading)]
    fn member(
        &self,
        at: u32,
        depth: u32,
        into: &mut Unit,
    ) -> Result<Option<(NodeId, u32)>, NoMemory>
        requires { IsReady R.types self.now into.old at }
        ensures { Reads R.types self.now.source at into.old into.new is_declaration result (λ names. readers names depth Members) }
    {
        let line = line_at(self.source.tokens, at);
        let (specs, next) = self.row(Part::Specifier, at, depth, into)?;
        if specs.is_empty() {
            return Ok(None);
        }
        let (declarators, end) = self.listed(Part::Declarator(Form::Named), next, depth, into)?;
        member_of(self.source.tokens, end, &specs, &declarators, line, into)
    }

    // A parameter (C17 6.7.6p1).
    #[cycle(reading)]
    fn parameter(
        &self,
        at: u32,
        depth: u32,
        into: &mut Unit,
    ) -> Result<Option<(NodeId, u32)>, NoMemory>
        requires { IsReady R.types self.now into.old at }
        ensures { Reads R.types self.now.source at into.old into.new is_declaration result (λ names. readers names depth Parameters) }
    {
        if depth == 0 {
            return Ok(None);
        }
        let line = line_at(self.source.tokens, at);
        let (specs, next) = self.row(Part::Specifier, at, depth - 1, into)?;
        if specs.is_empty() {
            return Ok(None);
        }
        let declarator = self.read(Part::Declarator(Form::Either), next, depth - 1, into)?;
        parameter_of(self.source.tokens, next, &specs, declarator, line, into)
    }

    // A declarator, or an abstract one (C17 6.7.6, 6.7.7).
    #[cycle(reading)]
    fn declarator(
        &self,
        at: u32,
        form: Form,
        depth: u32,
        into: &mut Unit,
    ) -> Result<Option<(NodeId, u32)>, NoMemory>
        requires { IsReady R.types self.now into.old at }
        ensures { Reads R.types self.now.source at into.old into.new is_declarator result (λ names. readers names depth (place_of_part (part.Declarator form))) }
    {
        if depth == 0 {
            return Ok(None);
        }
        let line = line_at(self.source.tokens, at);
        match self.head(at, form, depth - 1, into)? {
            Some((first, next)) => self.grow(next, first, line, depth - 1, into),
            None => Ok(None),
        }
    }

    // The longest declarator that begins with one.
    #[cycle(reading)]
    fn grow(
        &self,
        at: u32,
        first: NodeId,
        line: u32,
        below: u32,
        into: &mut Unit,
    ) -> Result<Option<(NodeId, u32)>, NoMemory>
        requires ready { IsReady R.types self.now into.old at }
        requires node { Is into.old is_declarator first }
        ensures { Reads R.types self.now.source at into.old into.new is_declarator result (λ names ts. Some (longest_declarator (readers names below) below line (tree_at into.old.forest first) ts)) }
    {
        let mut left = first;
        let mut next = at;
        loop {
            match self.extend(next, left, line, below, into)? {
                Some((longer, end)) => {
                    left = longer;
                    next = end;
                }
                None => return Ok(Some((left, next))),
            }
        }
    }

    // The next longer declarator that begins with one: brackets or parameters behind it
    // (C17 6.7.6.2, 6.7.6.3).
    #[cycle(reading)]
    fn extend(
        &self,
        at: u32,
        left: NodeId,
        line: u32,
        below: u32,
        into: &mut Unit,
    ) -> Result<Option<(NodeId, u32)>, NoMemory>
        requires ready { IsReady R.types self.now into.old at }
        requires node { Is into.old is_declarator left }
        ensures { Reads R.types self.now.source at into.old into.new is_declarator result (λ names. longer_declarator (readers names below) below line (tree_at into.old.forest left)) }
    {
        if !may_go_on(into, left, below) {
            return Ok(None);
        }
        let Some(token) = peek(self.source.tokens, at) else {
            return Ok(None);
        };
        let Some(opening) = opening_of(token.kind) else {
            return Ok(None);
        };
        match opening {
            Opening::Bracket => self.array(at + 1, Some(left), line, below, into),
            Opening::Paren => self.parameters(at + 1, Some(left), line, below, into),
            _ => Ok(None),
        }
    }

    /// Parameters behind a declarator that may be left out, from behind the `(` on (C17 6.7.6.3):
    /// the list that is known of the place, or else the one that is read.
    #[cycle(reading)]
    pub(crate) fn parameters(
        &self,
        at: u32,
        left: Option<NodeId>,
        line: u32,
        below: u32,
        into: &mut Unit,
    ) -> Result<Option<(NodeId, u32)>, NoMemory>
        requires ready { IsReady R.types self.now into.old at }
        requires left { IfSome left (λ n. Is into.old is_declarator n) }
        ensures { Reads R.types self.now.source at into.old into.new is_declarator result (λ names. parameters_behind (function_of line (optional_at into.old.forest left)) (readers names below)) }
    {
        if below <= DEPTH_LIMIT {
            if let Some(list) = self.lists.at(at) {
                return self.known_parameters(at, list, left, line, below, into);
            }
        }
        let (parts, end) = self.listed(Part::Parameter, at, below, into)?;
        function_of(self.source.tokens, end, left, &parts, line, into)
    }

    // A declarator that nothing went on from yet.
    #[cycle(reading)]
    fn head(
        &self,
        at: u32,
        form: Form,
        below: u32,
        into: &mut Unit,
    ) -> Result<Option<(NodeId, u32)>, NoMemory>
        requires { IsReady R.types self.now into.old at }
        ensures { Reads R.types self.now.source at into.old into.new is_declarator result (λ names. head names (readers names below) form) }
    {
        let Some(token) = peek(self.source.tokens, at) else {
            return Ok(None);
        };
        let Some(opening) = opening_of(token.kind) else {
            return Ok(None);
        };
        let next = at + 1;
        let line = token.line;
        match opening {
            Opening::Name(name) => {
                named(
                    self.source.tokens,
                    self.source.typedefs,
                    next,
                    form,
                    name,
                    line,
                    into,
                )
            }
            Opening::Star => self.pointer(next, form, line, below, into),
            Opening::Paren => self.opened(next, form, line, below, into),
            Opening::Bracket => self.abstract_array(next, form, line, below, into),
        }
    }

    // A pointer, from behind its `*` on (C17 6.7.6.1).
    #[cycle(reading)]
    fn pointer(
        &self,
        at: u32,
        form: Form,
        line: u32,
        below: u32,
        into: &mut Unit,
    ) -> Result<Option<(NodeId, u32)>, NoMemory>
        requires { IsReady R.types self.now into.old at }
        ensures { Reads R.types self.now.source at into.old into.new is_declarator result (λ names ts. pointer (readers names below) form line (consts_in_row ts) (drop (consts_in_row ts) ts)) }
    {
        let (consts, behind) = consts_in_row(self.source.tokens, at);
        let inner = self.read(Part::Declarator(form), behind, below, into)?;
        pointed(self.source.tokens, behind, form, consts, inner, line, into)
    }

    // What stands behind the `(` that a declarator begins with: parameters, or another declarator
    // (C17 6.7.6p6, 6.7.6.3, 6.7.7).
    #[cycle(reading)]
    fn opened(
        &self,
        at: u32,
        form: Form,
        line: u32,
        below: u32,
        into: &mut Unit,
    ) -> Result<Option<(NodeId, u32)>, NoMemory>
        requires { IsReady R.types self.now into.old at }
        ensures { Reads R.types self.now.source at into.old into.new is_declarator result (λ names. behind_paren names (readers names below) form line) }
    {
        if opens_parameters(self.source.tokens, self.source.typedefs, at) {
            if form.allows_abstract() {
                self.parameters(at, None, line, below, into)
            } else {
                Ok(None)
            }
        } else {
            let inner = self.read(Part::Declarator(form), at, below, into)?;
            parenthesized(self.source.tokens, inner, line, into)
        }
    }
}
