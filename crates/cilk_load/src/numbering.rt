//! The nodes of statements without inlets, numbered in the order of the text. Each function that writes some answers the
//! number of the body's next variable, and leaves the names as they were.

ghost use Rattle.std.specs.Prelude.{◌≡◌, ◌+◌, ◌≤◌, ◌∷◌, ◌++◌, IfOk, OnOk, length, vec_len};
ghost use Rattle.cilk_tree_syntax.specs.Tree as tree;
ghost use Rattle.cilk_tree_syntax.specs.Tree.{stmts_of, locals_of};
ghost use Rattle.cilk_load_nodes.specs.labelled.Count.{count_shape, count_stmt, count_stmts, count_locals, count_block};
ghost use Rattle.cilk_load_nodes.specs.labelled.Label.{stmt_variables, stmts_variables, locals_variables, block_variables};
ghost use Rattle.cilk_load_nodes.specs.Plain.{PlainLocals, PlainStmt, PlainStmts, PlainBlock};
ghost use Rattle.cilk_load_nodes.specs.declared.action.Action.TheVariants.{Test};
ghost use Rattle.cilk_load.specs.Acts.{code_in};
ghost use Rattle.cilk_load.specs.Scope.{declared};
ghost use Rattle.cilk_load.specs.Firsts.{block_first, locals_first};
ghost use Rattle.cilk_load.specs.Pass.{var_slot, bound_var, node, shape_nodes};
ghost use Rattle.cilk_load.specs.Pass.{locals_scope, locals_nodes, stmt_nodes, stmts_nodes, block_nodes};

use crate::acts::initialiser_in;
use crate::binding::Binding;
use crate::counts::{actions, actions_in, actions_of_locals, actions_of_stmts, count_part};
use crate::exits::{Exits, exits_to, in_loop, in_switch};
use crate::firsts::{block_first, first_if, locals_first};
use crate::pass::{Pass, Site};
use crate::room::NoRoom;
use crate::symbol_table::nowhere;
use cilk_load_nodes::Var;
use cilk_tree_syntax::{Block, Decl, Expr, Local, LocalNode, Move, Shape, Stmt, StmtNode};

// What stands in the parentheses of a `for`.
#[derive(Clone, Copy)]
struct Rounds<'t> {
    first: &'t Option<Move>,
    test: &'t Expr,
    advance: &'t Option<Move>,
}

impl<'a> Pass<'a> {
    /// Appends the nodes of a block in an inlet or in another block.
    #[cycle(put)]
    pub(crate) fn put_block(
        &mut self,
        site: Site,
        n: u32,
        block: &'a Block,
        exits: Exits,
    ) -> Result<u32, NoRoom>
        requires room { vec_len self.old.nodes + count_block block.now ≤ 65534 }
        requires plain { PlainBlock block.now }
        ensures nodes { OnOk result (self.new.nodes.items ≡ self.old.nodes.items
            ++ block_nodes site.entry.body site.entry.vars.now self.old.names (vec_len self.old.nodes + 1) n block.now exits) }
        ensures len { OnOk result (vec_len self.new.nodes ≡ vec_len self.old.nodes + count_block block.now) }
        ensures names { OnOk result (self.new.names ≡ self.old.names) }
        ensures after { IfOk result (λ m. m ≡ n + length (block_variables block.now)) }
    {
        let middle = self.at() + actions_of_locals(&block.locals);
        let first = first_if(actions_of_stmts(&block.stmts), middle, exits.next);
        let n = self.put_locals(site, n, &block.locals, first)?;
        let n = self.put_stmts(site, n, &block.stmts, exits)?;
        self.names.forget(block.locals.len())?;
        Ok(n)
    }

    // The declarations remain visible.
    fn put_locals(
        &mut self,
        site: Site,
        n: u32,
        locals: &'a [Local],
        next: Option<u32>,
    ) -> Result<u32, NoRoom>
        requires room { vec_len self.old.nodes + count_locals (locals_of locals.now) ≤ 65534 }
        requires plain { PlainLocals (locals_of locals.now) }
        ensures nodes { OnOk result (self.new.nodes.items ≡ self.old.nodes.items
            ++ locals_nodes site.entry.body site.entry.vars.now self.old.names (vec_len self.old.nodes + 1) n (locals_of locals.now) next) }
        ensures len { OnOk result (vec_len self.new.nodes ≡ vec_len self.old.nodes + count_locals (locals_of locals.now)) }
        ensures names { OnOk result (self.new.names ≡ locals_scope site.entry.vars.now n (locals_of locals.now) self.old.names) }
        ensures after { IfOk result (λ m. m ≡ n + length (locals_variables (locals_of locals.now))) }
    {
        let mut n = n;
        for (i, local) in locals.iter().enumerate() {
            match &local.node {
                LocalNode::Decl(decl) => {
                    n = self.put_decl(site, n, decl, &locals[i + 1..], next)?;
                }
                LocalNode::Inlet(_) => {}
            }
        }
        Ok(n)
    }

    /// Appends the node of an initialiser, if there is one, where these declarations and then `next` come behind it. The
    /// variable remains visible.
    pub(crate) fn put_decl(
        &mut self,
        site: Site,
        n: u32,
        decl: &'a Decl,
        others: &[Local],
        next: Option<u32>,
    ) -> Result<u32, NoRoom>
        requires { vec_len self.old.nodes + (count_shape decl.now.shape + count_locals (locals_of others.now)) ≤ 65534 }
        ensures nodes { OnOk result (self.new.nodes.items ≡ self.old.nodes.items
            ++ shape_nodes site.entry.body (declared self.old.names (bound_var site.entry.vars.now n decl.now.name)) decl.now.name decl.now.shape
            (locals_first (vec_len self.old.nodes + 1 + count_shape decl.now.shape) (locals_of others.now) next)) }
        ensures len { OnOk result (vec_len self.new.nodes ≡ vec_len self.old.nodes + count_shape decl.now.shape) }
        ensures names { OnOk result (self.new.names ≡ declared self.old.names (bound_var site.entry.vars.now n decl.now.name)) }
        ensures after { IfOk result (λ m. m ≡ n + 1) }
    {
        self.names.declare(&decl.name, bound_var(site.vars, n))?;
        match &decl.shape {
            Shape::Variable(Some(value)) => {
                let next = locals_first(others, self.at() + 1, next);
                let action = initialiser_in(self.alloc, &self.names, &decl.name, value)?;
                self.put_onward(site.body, action, next)?;
            }
            Shape::Variable(None) => {}
            Shape::Array(_) => {}
        }
        n.checked_add(1).ok_or(NoRoom::TooLarge)
    }

    /// Appends the nodes of statements.
    #[cycle(put)]
    pub(crate) fn put_stmts(
        &mut self,
        site: Site,
        n: u32,
        stmts: &'a [Stmt],
        exits: Exits,
    ) -> Result<u32, NoRoom>
        requires room { vec_len self.old.nodes + count_stmts (stmts_of stmts.now) ≤ 65534 }
        requires plain { PlainStmts (stmts_of stmts.now) }
        ensures nodes { OnOk result (self.new.nodes.items ≡ self.old.nodes.items
            ++ stmts_nodes site.entry.body site.entry.vars.now self.old.names (vec_len self.old.nodes + 1) n (stmts_of stmts.now) exits) }
        ensures len { OnOk result (vec_len self.new.nodes ≡ vec_len self.old.nodes + count_stmts (stmts_of stmts.now)) }
        ensures names { OnOk result (self.new.names ≡ self.old.names) }
        ensures after { IfOk result (λ m. m ≡ n + length (stmts_variables (stmts_of stmts.now))) }
    {
        let mut n = n;
        let mut left = actions_of_stmts(stmts);
        for stmt in stmts {
            let count = actions(stmt);
            left -= count;
            let next = first_if(left, self.at() + count, exits.next);
            n = self.put_stmt(site, n, stmt, exits_to(next, exits))?;
        }
        Ok(n)
    }

    #[cycle(put)]
    fn put_stmt(&mut self, site: Site, n: u32, stmt: &'a Stmt, exits: Exits) -> Result<u32, NoRoom>
        requires room { vec_len self.old.nodes + count_stmt stmt.now ≤ 65534 }
        requires plain { PlainStmt stmt.now }
        ensures nodes { OnOk result (self.new.nodes.items ≡ self.old.nodes.items
            ++ stmt_nodes site.entry.body site.entry.vars.now self.old.names (vec_len self.old.nodes + 1) n stmt.now exits) }
        ensures len { OnOk result (vec_len self.new.nodes ≡ vec_len self.old.nodes + count_stmt stmt.now) }
        ensures names { OnOk result (self.new.names ≡ self.old.names) }
        ensures after { IfOk result (λ m. m ≡ n + length (stmt_variables stmt.now)) }
    {
        match &stmt.node {
            StmtNode::If(test, body, None) => {
                self.put_when(site, n, body, test, exits.next, exits)
            }
            StmtNode::If(test, body, Some(other)) => {
                let behind = self.at() + 1 + actions_in(body);
                let second = block_first(other, behind, exits.next);
                let n = self.put_when(site, n, body, test, second, exits)?;
                self.put_block(site, n, other, exits)
            }
            StmtNode::While(test, body) => self.put_while(site, n, body, test, exits),
            StmtNode::Do(body, test) => self.put_do(site, n, body, test, exits),
            StmtNode::For(first, test, advance, body) => {
                let rounds = Rounds {
                    first,
                    test,
                    advance,
                };
                self.put_for(site, n, rounds, body, exits)
            }
            StmtNode::Switch(test, body) => self.put_switch(site, n, body, test, exits),
            StmtNode::Nested(inside) => self.put_block(site, n, inside, exits),
            _ => self.put_single(site.body, n, stmt, exits),
        }
    }

    // The test of an `if`, which leads to `other` where it is 0, and the part that comes behind it.
    #[cycle(put)]
    fn put_when(
        &mut self,
        site: Site,
        n: u32,
        body: &'a Block,
        test: &'a Expr,
        other: Option<u32>,
        exits: Exits,
    ) -> Result<u32, NoRoom>
        requires room { vec_len self.old.nodes + (1 + count_block body.now) ≤ 65534 }
        requires plain { PlainBlock body.now }
        ensures nodes { OnOk result (self.new.nodes.items ≡ self.old.nodes.items
            ++ (node site.entry.body (Test (code_in self.old.names test.now)) (block_first (vec_len self.old.nodes + 1 + 1) body.now exits.next) other
            ∷ block_nodes site.entry.body site.entry.vars.now self.old.names (vec_len self.old.nodes + 1 + 1) n body.now exits)) }
        ensures len { OnOk result (vec_len self.new.nodes ≡ vec_len self.old.nodes + (1 + count_block body.now)) }
        ensures names { OnOk result (self.new.names ≡ self.old.names) }
        ensures after { IfOk result (λ m. m ≡ n + length (block_variables body.now)) }
    {
        let first = block_first(body, self.at() + 1, exits.next);
        self.put_test(site.body, test, first, other)?;
        self.put_block(site, n, body, exits)
    }

    #[cycle(put)]
    fn put_switch(
        &mut self,
        site: Site,
        n: u32,
        body: &'a Block,
        test: &'a Expr,
        exits: Exits,
    ) -> Result<u32, NoRoom>
        requires room { vec_len self.old.nodes + count_stmt (tree.switch test.now body.now) ≤ 65534 }
        requires plain { PlainBlock body.now }
        ensures nodes { OnOk result (self.new.nodes.items ≡ self.old.nodes.items
            ++ stmt_nodes site.entry.body site.entry.vars.now self.old.names (vec_len self.old.nodes + 1) n (tree.switch test.now body.now) exits) }
        ensures len { OnOk result (vec_len self.new.nodes ≡ vec_len self.old.nodes + count_stmt (tree.switch test.now body.now)) }
        ensures names { OnOk result (self.new.names ≡ self.old.names) }
        ensures after { IfOk result (λ m. m ≡ n + length (block_variables body.now)) }
    {
        self.put_switch_test(site.body, test, body, exits.next)?;
        self.put_block(site, n, body, in_switch(exits))
    }

    #[cycle(put)]
    fn put_while(
        &mut self,
        site: Site,
        n: u32,
        body: &'a Block,
        test: &'a Expr,
        exits: Exits,
    ) -> Result<u32, NoRoom>
        requires room { vec_len self.old.nodes + count_stmt (tree.while test.now body.now) ≤ 65534 }
        requires plain { PlainBlock body.now }
        ensures nodes { OnOk result (self.new.nodes.items ≡ self.old.nodes.items
            ++ stmt_nodes site.entry.body site.entry.vars.now self.old.names (vec_len self.old.nodes + 1) n (tree.while test.now body.now) exits) }
        ensures len { OnOk result (vec_len self.new.nodes ≡ vec_len self.old.nodes + count_stmt (tree.while test.now body.now)) }
        ensures names { OnOk result (self.new.names ≡ self.old.names) }
        ensures after { IfOk result (λ m. m ≡ n + length (block_variables body.now)) }
    {
        let mark = self.at();
        let first = block_first(body, mark + 1, Some(mark));
        self.put_test(site.body, test, first, exits.next)?;
        self.put_block(site, n, body, in_loop(mark, exits.next))
    }

    #[cycle(put)]
    fn put_do(
        &mut self,
        site: Site,
        n: u32,
        body: &'a Block,
        test: &'a Expr,
        exits: Exits,
    ) -> Result<u32, NoRoom>
        requires room { vec_len self.old.nodes + count_stmt (tree.repeat body.now test.now) ≤ 65534 }
        requires plain { PlainBlock body.now }
        ensures nodes { OnOk result (self.new.nodes.items ≡ self.old.nodes.items
            ++ stmt_nodes site.entry.body site.entry.vars.now self.old.names (vec_len self.old.nodes + 1) n (tree.repeat body.now test.now) exits) }
        ensures len { OnOk result (vec_len self.new.nodes ≡ vec_len self.old.nodes + count_stmt (tree.repeat body.now test.now)) }
        ensures names { OnOk result (self.new.names ≡ self.old.names) }
        ensures after { IfOk result (λ m. m ≡ n + length (block_variables body.now)) }
    {
        let at = self.at();
        let mark = at + actions_in(body);
        let first = block_first(body, at, Some(mark));
        let n = self.put_block(site, n, body, in_loop(mark, exits.next))?;
        self.put_test(site.body, test, first, exits.next)?;
        Ok(n)
    }

    #[cycle(put)]
    fn put_for(
        &mut self,
        site: Site,
        n: u32,
        rounds: Rounds<'a>,
        body: &'a Block,
        exits: Exits,
    ) -> Result<u32, NoRoom>
        requires room { vec_len self.old.nodes + count_stmt (tree.loop rounds.first.now rounds.test.now rounds.advance.now body.now) ≤ 65534 }
        requires plain { PlainBlock body.now }
        ensures nodes { OnOk result (self.new.nodes.items ≡ self.old.nodes.items
            ++ stmt_nodes site.entry.body site.entry.vars.now self.old.names (vec_len self.old.nodes + 1) n
            (tree.loop rounds.entry.first.now rounds.entry.test.now rounds.entry.advance.now body.now) exits) }
        ensures len { OnOk result (vec_len self.new.nodes ≡ vec_len self.old.nodes
            + count_stmt (tree.loop rounds.entry.first.now rounds.entry.test.now rounds.entry.advance.now body.now)) }
        ensures names { OnOk result (self.new.names ≡ self.old.names) }
        ensures after { IfOk result (λ m. m ≡ n + length (block_variables body.now)) }
    {
        let mark = self.at() + count_part(rounds.first);
        let inside = mark + 1 + count_part(rounds.advance);
        let again = inside - 1;
        let entry = block_first(body, inside, Some(again));
        self.put_part(site.body, rounds.first, mark)?;
        self.put_test(site.body, rounds.test, entry, exits.next)?;
        self.put_part(site.body, rounds.advance, mark)?;
        self.put_block(site, n, body, in_loop(again, exits.next))
    }
}

/// What the name of variable n stands for.
pub(crate) fn bound_var(vars: &[Var], n: u32) -> Binding
    ensures { result ≡ record { slot = var_slot vars.now n; number = n } }
{
    let slot = match vars.get(n as usize) {
        Some(var) => var.slot,
        None => nowhere(),
    };
    Binding { slot, number: n }
}
