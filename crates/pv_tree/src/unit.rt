//! The tables of a translation unit.
ghost use Rattle.std.specs.Prelude.{◌≡◌, ◌<◌, ◌≤◌, ◌+◌, ◌∷◌, [], length, Some, slice_get, IfOk, OnOk, OnErr};
ghost use Rattle.pv_tree.specs.Tables.{Tables, no_tables, with_tree, with_list, with_external, tree_at, list_at, is_expression, is_declaration, is_declarator, is_specifier, is_initializer, is_statement, Is};
ghost use Rattle.pv_tree.specs.Syntax.{is_external, OfExpression, OfDeclaration, OfDeclarator, OfSpecifier, OfInitializer, OfStatement};
ghost use Rattle.pv_tree.specs.Nodes.{tree_of, expression_of, declaration_of, declarator_of, specifier_of, initializer_of, statement_of};
ghost use Rattle.pv_tree.specs.Children.{HasChildren, HasExprChildren, HasDeclChildren, HasDeclaratorChildren, HasSpecChildren, HasInitChildren, HasStmtChildren};
ghost use Rattle.pv_tree.specs.Depths.{tree_depth};
ghost use Rattle.pv_tree.specs.TreeLines.{tree_line};

use crate::lists::{LIMIT, Lists};
use crate::nodes::{Decl, Declarator, Expr, Init, ListId, Node, NodeId, Spec, Stmt};
use crate::rows::{Row, Rows};
use pv_token::NoMemory;
use std::alloc::Global;
use std::marker::Model;

/// The nodes of a translation unit (C17 6.9), the lists of their children, and its external
/// declarations.
#[derive(Drop)]
pub struct Unit {
    rows: Rows,
    lists: Lists,
    externals: Vec<NodeId>,
}

impl Model for Unit {
    ghost use Rattle.std.specs.Coded.{codes};
    ghost use Rattle.pv_tree.specs.Rows.{tables, IsFormed};
    ghost use Rattle.pv_tree.specs.Tables.{Tables};
    ghost use Rattle.pv_tree.specs.Codes.{tables_code};

    ghost Value = { Tables };

    ghost coded = { tables_code (Prim.hlevel codes) (Prim.hlevel codes) };

    ghost view = { λ u. tables u.lists u.rows u.externals.items };

    ghost invariant = { λ u. IsFormed (tables u.lists u.rows u.externals.items) u.rows };
}

impl Unit {
    /// A unit without nodes, which takes no memory.
    #[tactic(auto, unfolding(crate::specs::Rows::trees_of_rows))]
    pub fn new(alloc: Global) -> Unit
        ensures { result ≡ no_tables }
    {
        Unit {
            rows: Rows::new(alloc),
            lists: Lists::new(alloc),
            externals: Vec::new(alloc),
        }
    }

    /// A unit without nodes, with room for so many, so that a table whose length is nearly known is not moved as it grows.
    /// The only error is want of memory.
    #[tactic(auto, unfolding(crate::specs::Rows::trees_of_rows))]
    pub fn with_room(alloc: Global, count: usize) -> Result<Unit, NoMemory>
        ensures { IfOk result (λ u. u ≡ no_tables) }
    {
        Ok(Unit {
            rows: Rows::with_room(alloc, count)?,
            lists: Lists::new(alloc),
            externals: Vec::new(alloc),
        })
    }

    /// Keeps a list of nodes, and gives its number.
    #[inline(always)]
    pub fn add_list(&mut self, l: &[NodeId]) -> Result<ListId, NoMemory>
        ensures made { IfOk result (λ i. (self.new ≡ with_list self.old l.now) × (i.0 ≡ length self.old.forest.lists)) }
        ensures unchanged { OnErr result (self.new ≡ self.old) }
    {
        let index = self.lists.len();
        if index >= LIMIT {
            return Err(NoMemory);
        }
        self.lists.add(l)?;
        Ok(ListId(index as u32))
    }

    /// Keeps a list of one node, and gives its number.
    #[inline(always)]
    pub fn add_single(&mut self, n: NodeId) -> Result<ListId, NoMemory>
        ensures made { IfOk result (λ i. (self.new ≡ with_list self.old (n ∷ [])) × (i.0 ≡ length self.old.forest.lists)) }
        ensures unchanged { OnErr result (self.new ≡ self.old) }
    {
        let index = self.lists.len();
        if index >= LIMIT {
            return Err(NoMemory);
        }
        self.lists.add_one(n)?;
        Ok(ListId(index as u32))
    }

    /// The nodes of a list, in order.
    pub fn list(&self, l: ListId) -> &[NodeId]
        requires { l.0 < length self.now.forest.lists }
        ensures { result.now ≡ list_at self.now.forest l }
    {
        self.lists.at(l.0)
    }

    // The node of a number, and what its children are. Its short form is unpacked where it is looked at.
    #[inline(always)]
    fn node(&self, n: NodeId) -> Node
        requires { n.0 < length self.now.forest.trees }
        ensures tree { tree_at self.now.forest n ≡ tree_of self.now.forest (tree_line (tree_at self.now.forest n)) result }
        ensures children { HasChildren self.now.forest n.0 result }
    {
        self.rows.node(n.0)
    }

    /// The depth of the tree that a node stands for: one more than its deepest child's, and that of
    /// its deepest child where it is a part that is no node of its own.
    pub fn depth(&self, n: NodeId) -> u32
        requires { n.0 < length self.now.forest.trees }
        ensures value { result ≡ tree_depth (tree_at self.now.forest n) }
        ensures bounded { result ≤ n.0 + 1 }
    {
        self.rows.depth(n.0)
    }

    /// The line that was given when the node was added.
    pub fn line(&self, n: NodeId) -> u32
        requires { n.0 < length self.now.forest.trees }
        ensures { result ≡ tree_line (tree_at self.now.forest n) }
    {
        self.rows.line(n.0)
    }

    // Adds a node of any kind. It is mostly known where this is called, so that nothing is decided by kinds there.
    #[inline(always)]
    fn add(&mut self, node: Node, line: u32) -> Result<NodeId, NoMemory>
        requires { HasChildren self.old.forest (length self.old.forest.trees) node }
        ensures made { IfOk result (λ n. (self.new ≡ with_tree self.old (tree_of self.old.forest line node)) × (n.0 ≡ length self.old.forest.trees)) }
        ensures unchanged { OnErr result (self.new ≡ self.old) }
    {
        let count = self.rows.len();
        if count >= LIMIT {
            return Err(NoMemory);
        }
        let depth = self.depth_of(node);
        self.rows.push(Row { node, line, depth })?;
        Ok(NodeId(count as u32))
    }

    /// Adds an expression (C17 6.5), whose first token stands on `line`.
    #[inline(always)]
    pub fn add_expr(&mut self, e: Expr, line: u32) -> Result<NodeId, NoMemory>
        requires { HasExprChildren self.old.forest (length self.old.forest.trees) e }
        ensures made { IfOk result (λ n. (self.new ≡ with_tree self.old (OfExpression (expression_of self.old.forest line e))) × (n.0 ≡ length self.old.forest.trees)) }
        ensures unchanged { OnErr result (self.new ≡ self.old) }
    {
        self.add(Node::Expr(e), line)
    }

    /// Adds a declaration, or a part of one (C17 6.7, 6.9), whose first token stands on `line`.
    #[inline(always)]
    pub fn add_decl(&mut self, d: Decl, line: u32) -> Result<NodeId, NoMemory>
        requires { HasDeclChildren self.old.forest (length self.old.forest.trees) d }
        ensures made { IfOk result (λ n. (self.new ≡ with_tree self.old (OfDeclaration (declaration_of self.old.forest line d))) × (n.0 ≡ length self.old.forest.trees)) }
        ensures unchanged { OnErr result (self.new ≡ self.old) }
    {
        self.add(Node::Decl(d), line)
    }

    /// Adds a declarator (C17 6.7.6, 6.7.7), whose first token stands on `line`.
    #[inline(always)]
    pub fn add_declarator(&mut self, d: Declarator, line: u32) -> Result<NodeId, NoMemory>
        requires { HasDeclaratorChildren self.old.forest (length self.old.forest.trees) d }
        ensures made { IfOk result (λ n. (self.new ≡ with_tree self.old (OfDeclarator (declarator_of self.old.forest line d))) × (n.0 ≡ length self.old.forest.trees)) }
        ensures unchanged { OnErr result (self.new ≡ self.old) }
    {
        self.add(Node::Declarator(d), line)
    }

    /// Adds a specifier (C17 6.7p1), whose first token stands on `line`.
    #[inline(always)]
    pub fn add_spec(&mut self, s: Spec, line: u32) -> Result<NodeId, NoMemory>
        requires { HasSpecChildren self.old.forest (length self.old.forest.trees) s }
        ensures made { IfOk result (λ n. (self.new ≡ with_tree self.old (OfSpecifier (specifier_of self.old.forest line s))) × (n.0 ≡ length self.old.forest.trees)) }
        ensures unchanged { OnErr result (self.new ≡ self.old) }
    {
        self.add(Node::Spec(s), line)
    }

    /// Adds an initializer (C17 6.7.9), whose first token stands on `line`.
    #[inline(always)]
    pub fn add_init(&mut self, i: Init, line: u32) -> Result<NodeId, NoMemory>
        requires { HasInitChildren self.old.forest (length self.old.forest.trees) i }
        ensures made { IfOk result (λ n. (self.new ≡ with_tree self.old (OfInitializer (initializer_of self.old.forest line i))) × (n.0 ≡ length self.old.forest.trees)) }
        ensures unchanged { OnErr result (self.new ≡ self.old) }
    {
        self.add(Node::Init(i), line)
    }

    /// Adds a statement, a block or a label (C17 6.8), whose first token stands on `line`.
    #[inline(always)]
    pub fn add_stmt(&mut self, s: Stmt, line: u32) -> Result<NodeId, NoMemory>
        requires { HasStmtChildren self.old.forest (length self.old.forest.trees) s }
        ensures made { IfOk result (λ n. (self.new ≡ with_tree self.old (OfStatement (statement_of self.old.forest line s))) × (n.0 ≡ length self.old.forest.trees)) }
        ensures unchanged { OnErr result (self.new ≡ self.old) }
    {
        self.add(Node::Stmt(s), line)
    }

    /// The node of an expression (C17 6.5).
    #[inline(always)]
    pub fn expr(&self, n: NodeId) -> Expr
        requires { Is self.now is_expression n }
        ensures tree { tree_at self.now.forest n ≡ OfExpression (expression_of self.now.forest (tree_line (tree_at self.now.forest n)) result) }
        ensures children { HasExprChildren self.now.forest n.0 result }
    {
        match self.node(n) {
            Node::Expr(e) => e,
            _ => unreachable!(),
        }
    }

    /// The node of a declaration, or a part of one (C17 6.7, 6.9).
    #[inline(always)]
    pub fn decl(&self, n: NodeId) -> Decl
        requires { Is self.now is_declaration n }
        ensures tree { tree_at self.now.forest n ≡ OfDeclaration (declaration_of self.now.forest (tree_line (tree_at self.now.forest n)) result) }
        ensures children { HasDeclChildren self.now.forest n.0 result }
    {
        match self.node(n) {
            Node::Decl(d) => d,
            _ => unreachable!(),
        }
    }

    /// The node of a declarator (C17 6.7.6, 6.7.7).
    #[inline(always)]
    pub fn declarator(&self, n: NodeId) -> Declarator
        requires { Is self.now is_declarator n }
        ensures tree { tree_at self.now.forest n ≡ OfDeclarator (declarator_of self.now.forest (tree_line (tree_at self.now.forest n)) result) }
        ensures children { HasDeclaratorChildren self.now.forest n.0 result }
    {
        match self.node(n) {
            Node::Declarator(d) => d,
            _ => unreachable!(),
        }
    }

    /// The node of a specifier (C17 6.7p1).
    #[inline(always)]
    pub fn spec(&self, n: NodeId) -> Spec
        requires { Is self.now is_specifier n }
        ensures tree { tree_at self.now.forest n ≡ OfSpecifier (specifier_of self.now.forest (tree_line (tree_at self.now.forest n)) result) }
        ensures children { HasSpecChildren self.now.forest n.0 result }
    {
        match self.node(n) {
            Node::Spec(s) => s,
            _ => unreachable!(),
        }
    }

    /// The node of an initializer (C17 6.7.9).
    #[inline(always)]
    pub fn init(&self, n: NodeId) -> Init
        requires { Is self.now is_initializer n }
        ensures tree { tree_at self.now.forest n ≡ OfInitializer (initializer_of self.now.forest (tree_line (tree_at self.now.forest n)) result) }
        ensures children { HasInitChildren self.now.forest n.0 result }
    {
        match self.node(n) {
            Node::Init(i) => i,
            _ => unreachable!(),
        }
    }

    /// The node of a statement, a block or a label (C17 6.8).
    #[inline(always)]
    pub fn stmt(&self, n: NodeId) -> Stmt
        requires { Is self.now is_statement n }
        ensures tree { tree_at self.now.forest n ≡ OfStatement (statement_of self.now.forest (tree_line (tree_at self.now.forest n)) result) }
        ensures children { HasStmtChildren self.now.forest n.0 result }
    {
        match self.node(n) {
            Node::Stmt(s) => s,
            _ => unreachable!(),
        }
    }

    /// Whether the node is a declaration, or a part of one: among the items of a block, a declaration (C17 6.8.2p1).
    pub fn is_declaration(&self, n: NodeId) -> bool
        requires { n.0 < length self.now.forest.trees }
        ensures { result ≡ is_declaration (tree_at self.now.forest n) }
    {
        match self.node(n) {
            Node::Decl(_) => true,
            Node::Expr(_) | Node::Declarator(_) | Node::Spec(_) | Node::Init(_) | Node::Stmt(_) =>
                false,
        }
    }

    /// How many external declarations there are (C17 6.9p1).
    pub fn count(&self) -> u32
        ensures { result ≡ length self.now.externals }
    {
        self.externals.len() as u32
    }

    /// External declaration number `i`, from 0 in the order in which they were added.
    pub fn external(&self, i: u32) -> NodeId
        requires { i < length self.now.externals }
        ensures number { slice_get self.now.externals i ≡ Some result }
        ensures kind { Is self.now is_external result }
    {
        self.externals[i as usize]
    }

    /// Makes a function definition or a declaration the next external declaration (C17 6.9p1).
    pub fn add_external(&mut self, n: NodeId) -> Result<(), NoMemory>
        requires { Is self.old is_external n }
        ensures made { OnOk result (self.new ≡ with_external self.old n) }
        ensures unchanged { OnErr result (self.new ≡ self.old) }
    {
        if self.externals.len() >= LIMIT {
            return Err(NoMemory);
        }
        self.externals.push(n)?;
        Ok(())
    }
}
