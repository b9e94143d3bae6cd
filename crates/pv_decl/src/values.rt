//! Parts of declarations that expressions stand in.
ghost use Rattle.std.specs.Prelude.{IfSome, None, if◌then◌else◌};
ghost use Rattle.pv_tree.specs.Syntax.{Absent};
ghost use Rattle.pv_tree.specs.Tables.{optional_at, is_declaration, is_declarator, is_expression, Is};
ghost use Rattle.pv_tree.specs.Places.{Constants, Enumerators};
ghost use Rattle.pv_decl_forms.specs.Declarators.{allows_abstract, size_behind};
ghost use Rattle.pv_decl_forms.specs.Parts.{array_of};
ghost use Rattle.pv_decl_forms.specs.Pieces.{value};
ghost use Rattle.pv_decl_forms.specs.Reader.{readers};
ghost use Rattle.pv_decl_forms.specs.Sources.{Reads, ReadsIfAny};
ghost use Rattle.pv_decl.specs.Sources.{IsReady};

use crate::declarations::Declarations;
use pv_decl_forms::{Form, Sign, after, array_of, found_declaration, name_of};
use pv_expr::{Level, expression};
use pv_expr_forms::{is_type, peek};
use pv_token::NoMemory;
use pv_tree::{Decl, NodeId, TypeReader, Unit};

impl<R: TypeReader> Declarations<'_, R> {
    /// The conditional expression at a place, as which constant expressions are written
    /// (C17 6.6p1), and the place behind it.
    fn constant(
        &self,
        at: u32,
        depth: u32,
        into: &mut Unit,
    ) -> Result<Option<(NodeId, u32)>, NoMemory>
        requires { IsReady R.types self.now into.old at }
        ensures { Reads R.types self.now.source at into.old into.new is_expression result (λ names. readers names depth Constants) }
    {
        expression(
            self.source.tokens,
            at,
            Level::Conditional,
            depth,
            self.source.typedefs,
            into,
            self.source.reader,
        )
    }

    /// The size in brackets behind a declarator that may be left out, from behind the `[` on
    /// (C17 6.7.6.2).
    pub(crate) fn array(
        &self,
        at: u32,
        left: Option<NodeId>,
        line: u32,
        below: u32,
        into: &mut Unit,
    ) -> Result<Option<(NodeId, u32)>, NoMemory>
        requires ready { IsReady R.types self.now into.old at }
        requires left { IfSome left (λ n. Is into.old is_declarator n) }
        ensures { Reads R.types self.now.source at into.old into.new is_declarator result (λ names. size_behind (array_of line (optional_at into.old.forest left)) (readers names below)) }
    {
        match self.constant(at, below, into)? {
            Some((size, end)) => array_of(self.source.tokens, end, left, Some(size), line, into),
            None => array_of(self.source.tokens, at, left, None, line, into),
        }
    }

    /// The same behind no declarator, where an abstract one may stand (C17 6.7.7p1).
    pub(crate) fn abstract_array(
        &self,
        at: u32,
        form: Form,
        line: u32,
        below: u32,
        into: &mut Unit,
    ) -> Result<Option<(NodeId, u32)>, NoMemory>
        requires { IsReady R.types self.now into.old at }
        ensures { Reads R.types self.now.source at into.old into.new is_declarator result (λ names ts. if allows_abstract form then size_behind (array_of line Absent) (readers names below) ts else None) }
    {
        if form.allows_abstract() {
            self.array(at, None, line, below, into)
        } else {
            Ok(None)
        }
    }

    /// The value behind a `=` at a place, if both can be read, and the place behind it.
    fn constant_value(
        &self,
        at: u32,
        depth: u32,
        into: &mut Unit,
    ) -> Result<(Option<NodeId>, u32), NoMemory>
        requires { IsReady R.types self.now into.old at }
        ensures { ReadsIfAny R.types self.now.source at into.old into.new is_expression result (λ names. value (readers names depth Constants)) }
    {
        let Some(behind) = after(self.source.tokens, at, Sign::Equals) else {
            return Ok((None, at));
        };
        match self.constant(behind, depth, into)? {
            Some((value, end)) => Ok((Some(value), end)),
            None => Ok((None, at)),
        }
    }

    /// An enumerator, and the place behind it (C17 6.7.2.2p1).
    pub(crate) fn enumerator(
        &self,
        at: u32,
        depth: u32,
        into: &mut Unit,
    ) -> Result<Option<(NodeId, u32)>, NoMemory>
        requires { IsReady R.types self.now into.old at }
        ensures { Reads R.types self.now.source at into.old into.new is_declaration result (λ names. readers names depth Enumerators) }
    {
        let Some(token) = peek(self.source.tokens, at) else {
            return Ok(None);
        };
        let Some(name) = name_of(token.kind) else {
            return Ok(None);
        };
        if is_type(self.source.typedefs, name) {
            return Ok(None);
        }
        let (value, end) = self.constant_value(at + 1, depth, into)?;
        let enumerator = Decl::Enumerator { name, value };
        found_declaration(self.source.tokens, end, enumerator, token.line, into)
    }
}
