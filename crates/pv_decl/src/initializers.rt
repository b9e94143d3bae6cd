//! Initializers (C17 6.7.9), and declarators with them.
ghost use Rattle.std.specs.Prelude.{Some};
ghost use Rattle.pv_tree.specs.Tables.{tree_at, is_declaration, is_declarator, is_expression, is_initializer, Is};
ghost use Rattle.pv_tree.specs.Places.{Initializers};
ghost use Rattle.pv_decl_forms.specs.Parts.{assignment_expression};
ghost use Rattle.pv_decl_forms.specs.Pieces.{value, comma_list};
ghost use Rattle.pv_decl_forms.specs.Reader.{readers, declarator_and_value};
ghost use Rattle.pv_decl_forms.specs.Sources.{Reads, ReadsRow, ReadsIfAny};
ghost use Rattle.pv_decl.specs.Sources.{IsReady};

use crate::declarations::Declarations;
use pv_decl_forms::{Sign, after, braces_of, found_declaration, found_initializer};
use pv_expr::{Level, expression};
use pv_expr_forms::line_at;
use pv_token::NoMemory;
use pv_tree::{Decl, Init, NodeId, TypeReader, Unit};

impl<R: TypeReader> Declarations<'_, R> {
    /// An initializer, and the place behind it.
    #[cycle(initializing)]
    fn initializer(
        &self,
        at: u32,
        depth: u32,
        into: &mut Unit,
    ) -> Result<Option<(NodeId, u32)>, NoMemory>
        requires { IsReady R.types self.now into.old at }
        ensures { Reads R.types self.now.source at into.old into.new is_initializer result (λ names. readers names depth Initializers) }
    {
        if depth == 0 {
            return Ok(None);
        }
        let line = line_at(self.source.tokens, at);
        if let Some(inside) = after(self.source.tokens, at, Sign::OpenBrace) {
            let (parts, end) = self.initializers(inside, depth - 1, into)?;
            return braces_of(self.source.tokens, end, &parts, line, into);
        }
        match self.assigned(at, depth - 1, into)? {
            Some((value, end)) => found_initializer(
                self.source.tokens,
                end,
                Init::Expr(value),
                line,
                into,
            ),
            None => Ok(None),
        }
    }

    // The assignment expression at a place, and the place behind it.
    fn assigned(
        &self,
        at: u32,
        depth: u32,
        into: &mut Unit,
    ) -> Result<Option<(NodeId, u32)>, NoMemory>
        requires { IsReady R.types self.now into.old at }
        ensures { Reads R.types self.now.source at into.old into.new is_expression result (λ names. assignment_expression names depth) }
    {
        expression(
            self.source.tokens,
            at,
            Level::Assignment,
            depth,
            self.source.typedefs,
            into,
            self.source.reader,
        )
    }

    // The initializers with commas between them from a place on, and the place behind them.
    #[cycle(initializing)]
    fn initializers(
        &self,
        at: u32,
        depth: u32,
        into: &mut Unit,
    ) -> Result<(Vec<NodeId>, u32), NoMemory>
        requires { IsReady R.types self.now into.old at }
        ensures { ReadsRow R.types self.now.source at into.old into.new is_initializer result (λ names. comma_list (readers names depth Initializers)) }
    {
        let mut parts = Vec::new(*self.source.typedefs.allocator());
        let mut behind = at;
        let mut next = at;
        loop {
            let Some((found, end)) = self.initializer(next, depth, into)? else {
                return Ok((parts, behind));
            };
            parts.push(found)?;
            behind = end;
            match after(self.source.tokens, end, Sign::Comma) {
                Some(following) => next = following,
                None => return Ok((parts, behind)),
            }
        }
    }

    // The initializer behind a `=` at a place, if both can be read, and the place behind it.
    fn initial_value(
        &self,
        at: u32,
        depth: u32,
        into: &mut Unit,
    ) -> Result<(Option<NodeId>, u32), NoMemory>
        requires { IsReady R.types self.now into.old at }
        ensures { ReadsIfAny R.types self.now.source at into.old into.new is_initializer result (λ names. value (readers names depth Initializers)) }
    {
        let Some(behind) = after(self.source.tokens, at, Sign::Equals) else {
            return Ok((None, at));
        };
        match self.initializer(behind, depth, into)? {
            Some((value, end)) => Ok((Some(value), end)),
            None => Ok((None, at)),
        }
    }

    /// An init-declarator, whose declarator ends at a place, and the place behind it (C17 6.7p1).
    pub(crate) fn initialized(
        &self,
        at: u32,
        declarator: NodeId,
        line: u32,
        depth: u32,
        into: &mut Unit,
    ) -> Result<Option<(NodeId, u32)>, NoMemory>
        requires ready { IsReady R.types self.now into.old at }
        requires declarator { Is into.old is_declarator declarator }
        ensures { Reads R.types self.now.source at into.old into.new is_declaration result (λ names ts. Some (declarator_and_value (readers names depth) line (tree_at into.old.forest declarator) ts)) }
    {
        let (init, end) = self.initial_value(at, depth, into)?;
        let declared = Decl::InitDeclarator { declarator, init };
        found_declaration(self.source.tokens, end, declared, line, into)
    }
}
