//! The rows of the table of nodes.
ghost use Rattle.std.specs.Prelude.{◌≡◌, ◌<◌, ◌^◌, ◌++◌, ◌∷◌, [], length, IfOk, OnOk, OnErr};
ghost use Rattle.pv_tree.specs.Short.{row_at};

use crate::nodes::Node;
use crate::short::{ShortNode, long_declarator, long_expr, long_spec, long_stmt, short_node};
use pv_token::NoMemory;
use std::alloc::Global;
use std::marker::Model;
use std::mem::size_of;

/// A node, the line of its first token and the depth of its tree.
#[derive(Clone, Copy)]
pub(crate) struct Row {
    pub node: Node,
    pub line: u32,
    pub depth: u32,
}

/// A row in 28 bytes.
#[derive(Clone, Copy)]
pub(crate) struct ShortRow {
    node: ShortNode,
    line: u32,
    depth: u32,
}

const _: () = prove!(size_of::<ShortRow>() == 28);

/// The rows of a table of nodes, numbered from 0. Each takes 28 bytes, and the few nodes that need more stand in a list of
/// their own.
#[derive(Drop)]
pub(crate) struct Rows {
    short: Vec<ShortRow>,
    whole: Vec<Node>,
}

impl Model for Rows {
    ghost use Rattle.std.specs.Prelude.{List, map};
    ghost use Rattle.pv_tree.specs.declared.rows.Row.{Row};
    ghost use Rattle.pv_tree.specs.Short.{row_of, AreShort};

    ghost Value = { List Row };

    ghost view = { λ r. map (row_of r.whole.items) r.short.items };

    ghost invariant = { λ r. AreShort r.whole.items r.short.items };
}

impl Rows {
    /// No rows, which take no memory.
    pub fn new(alloc: Global) -> Rows
        ensures { result ≡ [] }
    {
        Rows {
            short: Vec::new(alloc),
            whole: Vec::new(alloc),
        }
    }

    /// No rows, with room for so many. The only error is want of memory.
    pub fn with_room(alloc: Global, count: usize) -> Result<Rows, NoMemory>
        ensures { IfOk result (λ r. r ≡ []) }
    {
        Ok(Rows {
            short: Vec::with_capacity(alloc, count)?,
            whole: Vec::new(alloc),
        })
    }

    /// How many there are.
    pub fn len(&self) -> usize
        ensures { result ≡ length self.now }
    {
        self.short.len()
    }

    /// The node of row number `i`.
    #[inline(always)]
    pub fn node(&self, i: u32) -> Node
        requires { i < length self.now }
        ensures { result ≡ (row_at self.now i).node }
    {
        match self.short[i as usize].node {
            ShortNode::Expr(e) => Node::Expr(long_expr(e)),
            ShortNode::Decl(d) => Node::Decl(d),
            ShortNode::Declarator(d) => Node::Declarator(long_declarator(d)),
            ShortNode::Spec(s) => Node::Spec(long_spec(s)),
            ShortNode::Init(x) => Node::Init(x),
            ShortNode::Stmt(s) => Node::Stmt(long_stmt(s)),
            ShortNode::Whole(n) => self.whole[n as usize],
        }
    }

    /// The line of row number `i`.
    pub fn line(&self, i: u32) -> u32
        requires { i < length self.now }
        ensures { result ≡ (row_at self.now i).line }
    {
        self.short[i as usize].line
    }

    /// The depth of row number `i`.
    pub fn depth(&self, i: u32) -> u32
        requires { i < length self.now }
        ensures { result ≡ (row_at self.now i).depth }
    {
        self.short[i as usize].depth
    }

    /// Keeps one more row.
    #[inline(always)]
    pub fn push(&mut self, row: Row) -> Result<(), NoMemory>
        requires { length self.old < 2 ^ 32 }
        ensures added { OnOk result (self.new ≡ self.old ++ (row ∷ [])) }
        ensures unchanged { OnErr result (self.new ≡ self.old) }
    {
        match short_node(row.node) {
            Some(node) => {
                self.short.push(ShortRow {
                    node,
                    line: row.line,
                    depth: row.depth,
                })?;
                Ok(())
            }
            None => self.push_whole(row),
        }
    }

    /// Keeps one more row, whose node has no short form.
    fn push_whole(&mut self, row: Row) -> Result<(), NoMemory>
        requires { length self.old < 2 ^ 32 }
        ensures added { OnOk result (self.new ≡ self.old ++ (row ∷ [])) }
        ensures unchanged { OnErr result (self.new ≡ self.old) }
    {
        self.short.reserve(1)?;
        let place = self.whole.len() as u32;
        self.whole.push(row.node)?;
        self.short.push_reserved(ShortRow {
            node: ShortNode::Whole(place),
            line: row.line,
            depth: row.depth,
        });
        Ok(())
    }
}
