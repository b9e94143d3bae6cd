//! One external declaration: a declaration or a function definition (C17 6.9).
ghost use Rattle.std.specs.Prelude.{◌≡◌, ◌≤◌, length, Some, None, IfOk, IfSome, nat_eq};
ghost use Rattle.indexmap.specs.IndexSet.{contains};
ghost use Rattle.pv_tree.specs.Tables.{is_specifier, is_declarator, Is, Extends, IsListOf};
ghost use Rattle.pv_tree.specs.Syntax.{is_external};
ghost use Rattle.pv_tree.specs.Units.{depth_limit};
ghost use Rattle.pv_stmt_forms.specs.Statements.{statement};
ghost use Rattle.pv_stmt_forms.specs.Externals.{external};
ghost use Rattle.pv_stmt_forms.specs.Found.{IsExternalAt, function_at};
ghost use Rattle.pv_expr_forms.specs.Sources.{IsReady};
ghost use Rattle.pv_decl_forms.specs.Sources.{Reads};

use crate::parts::declaration;
use crate::reading::statement;
use indexmap::IndexSet;
use pv_decl::type_names;
use pv_decl_forms::DEPTH_LIMIT;
use pv_expr_forms::Source;
use pv_stmt_forms::region_end;
use pv_token::{NoMemory, Tokens};
use pv_tree::{Decl, ListId, NodeId, TypeReader, Unit};
use std::alloc::Global;

/// The longest external declaration at a place, and the place behind it (C17 6.9p1).
fn read_external<R: TypeReader>(
    source: &Source<'_, R>,
    at: u32,
    into: &mut Unit,
) -> Result<Option<(NodeId, u32)>, NoMemory>
    requires { IsReady R.types source.now into.old at }
    ensures { Reads R.types source.now at into.old into.new is_external result (λ names. external names depth_limit) }
{
    let Some((head, next)) = declaration(source, at, DEPTH_LIMIT, into)? else {
        return Ok(None);
    };
    match into.decl(head) {
        Decl::Declaration { .. } => Ok(Some((head, next))),
        Decl::Parameter { specs, declarator } => {
            let Some(declarator) = declarator else {
                return Ok(None);
            };
            let line = into.line(head);
            function(source, next, specs, declarator, line, into)
        }
        _ => Ok(None),
    }
}

/// The function definition whose specifiers and declarator are nodes, and whose block begins at
/// a place (C17 6.9.1p1), and the place behind it.
fn function<R: TypeReader>(
    source: &Source<'_, R>,
    at: u32,
    specs: ListId,
    declarator: NodeId,
    line: u32,
    into: &mut Unit,
) -> Result<Option<(NodeId, u32)>, NoMemory>
    requires ready { IsReady R.types source.now into.old at }
    requires specs { IsListOf into.old is_specifier specs }
    requires declarator { Is into.old is_declarator declarator }
    ensures { Reads R.types source.now at into.old into.new is_external result (λ names ts. function_at into.old.forest line specs declarator (statement names 499 ts)) }
{
    let Some((block, end)) = statement(source, at, DEPTH_LIMIT - 1, into)? else {
        return Ok(None);
    };
    let function = Decl::Function {
        specs,
        declarator,
        block,
    };
    Ok(Some((into.add_decl(function, line)?, end)))
}

/// The external declaration at a place and the place behind it, where type names are known up to
/// another place: what is read is right, and so is that nothing is where they all are known.
fn read_up_to(
    alloc: Global,
    t: &Tokens,
    at: u32,
    to: u32,
    types: &IndexSet<u32>,
    into: &mut Unit,
) -> Result<Option<(NodeId, u32)>, NoMemory>
    requires { at ≤ length t.now.tokens }
    ensures keeps { Extends into.old into.new }
    ensures found { IfOk result (λ r. IfSome r (λ x. IsExternalAt into.new (contains nat_eq types.now) t.now.tokens at (Some x))) }
    ensures none { length t.now.tokens ≤ to → IfOk result (λ r. r ≡ None → IsExternalAt into.new (contains nat_eq types.now) t.now.tokens at None) }
{
    let names = type_names(alloc, t, at, to, types, into)?;
    let source = Source {
        tokens: t,
        typedefs: types,
        reader: &names,
    };
    read_external(&source, at, into)
}

/// The external declaration at a place, and the place behind it (C17 6.9p1).
///
/// The type names are looked for in the region that it seems to have, which takes no longer than
/// reading it. Only where nothing is read with these, all tokens are searched.
pub(crate) fn external(
    alloc: Global,
    t: &Tokens,
    at: u32,
    types: &IndexSet<u32>,
    into: &mut Unit,
) -> Result<Option<(NodeId, u32)>, NoMemory>
    requires { at ≤ length t.now.tokens }
    ensures keeps { Extends into.old into.new }
    ensures ok { IfOk result (λ r. IsExternalAt into.new (contains nat_eq types.now) t.now.tokens at r) }
{
    let to = region_end(t, at);
    let found = read_up_to(alloc, t, at, to, types, into)?;
    if found.is_some() || to == t.len() {
        return Ok(found);
    }
    read_up_to(alloc, t, at, t.len(), types, into)
}
