//! The nodes of single actions.

ghost use Rattle.std.specs.Prelude.{◌≡◌, ◌+◌, ◌≤◌, ◌∷◌, [], ◌++◌, IfOk, OnOk, vec_len};
ghost use Rattle.cilk_load_nodes.specs.labelled.Count.{count_option, count_block};
ghost use Rattle.cilk_load_nodes.specs.declared.action.Action.TheVariants.{Test};
ghost use Rattle.cilk_load.specs.Acts.{code_in, action_in};
ghost use Rattle.cilk_load.specs.Pass.{node, switch_test, onward, part_nodes, behind, single_nodes};

use crate::acts::action_in;
use crate::code::code_in;
use crate::counts::actions_of_locals;
use crate::exits::Exits;
use crate::labels::{cases_in, default_in};
use crate::moves::move_in;
use crate::pass::Pass;
use crate::room::NoRoom;
use cilk_load_nodes::{Action, Cases, Node};
use cilk_tree_syntax::{Block, Expr, Move, Stmt, StmtNode};

impl<'a> Pass<'a> {
    /// The first part or the advance of a `for`, if there is one.
    pub(crate) fn put_part(
        &mut self,
        body: u32,
        part: &Option<Move>,
        mark: u32,
    ) -> Result<(), NoRoom>
        ensures nodes { OnOk result (self.new.nodes.items ≡ self.old.nodes.items ++ part_nodes body self.old.names part.now mark) }
        ensures len { OnOk result (vec_len self.new.nodes ≡ vec_len self.old.nodes + count_option part.now) }
        ensures names { OnOk result (self.new.names ≡ self.old.names) }
    {
        match part {
            None => Ok(()),
            Some(what) => {
                let action = move_in(self.alloc, &self.names, what)?;
                self.put_onward(body, action, Some(mark))
            }
        }
    }

    /// A test, behind which one list comes where it is not 0, and another where it is.
    pub(crate) fn put_test(
        &mut self,
        body: u32,
        test: &Expr,
        next: Option<u32>,
        other: Option<u32>,
    ) -> Result<(), NoRoom>
        ensures nodes { OnOk result (self.new.nodes.items
            ≡ self.old.nodes.items ++ node body (Test (code_in self.old.names test.now)) next other ∷ []) }
        ensures len { OnOk result (vec_len self.new.nodes ≡ vec_len self.old.nodes + 1) }
        ensures names { OnOk result (self.new.names ≡ self.old.names) }
    {
        let action = Action::Test(code_in(self.alloc, &self.names, test)?);
        self.nodes.push(Node {
            action,
            next,
            other,
            cases: Cases::new(Vec::new(self.alloc)),
            body,
        })?;
        Ok(())
    }

    /// The test of a `switch` with this body, behind which `next` comes.
    pub(crate) fn put_switch_test(
        &mut self,
        body: u32,
        test: &Expr,
        inside: &Block,
        next: Option<u32>,
    ) -> Result<(), NoRoom>
        requires { vec_len self.old.nodes + (1 + count_block inside.now) ≤ 65534 }
        ensures nodes { OnOk result (self.new.nodes.items
            ≡ self.old.nodes.items ++ switch_test body self.old.names test.now (vec_len self.old.nodes + 2) inside.now next ∷ []) }
        ensures len { OnOk result (vec_len self.new.nodes ≡ vec_len self.old.nodes + 1) }
        ensures names { OnOk result (self.new.names ≡ self.old.names) }
    {
        let at = self.at() + 1 + actions_of_locals(&inside.locals);
        let to = default_in(at, &inside.stmts, next);
        let action = Action::Test(code_in(self.alloc, &self.names, test)?);
        let cases = cases_in(self.alloc, at, &inside.stmts, next)?;
        self.nodes.push(Node {
            action,
            next: to,
            other: to,
            cases,
            body,
        })?;
        Ok(())
    }

    /// Appends the node of a statement that is one action, and nothing for another one.
    pub(crate) fn put_single(
        &mut self,
        body: u32,
        n: u32,
        stmt: &Stmt,
        exits: Exits,
    ) -> Result<u32, NoRoom>
        ensures nodes { OnOk result (self.new.nodes.items
            ≡ self.old.nodes.items ++ single_nodes body (action_in self.old.names stmt.now) (behind stmt.now exits)) }
        ensures len { OnOk result (vec_len self.new.nodes ≡ vec_len self.old.nodes + count_option (action_in self.old.names stmt.now)) }
        ensures names { OnOk result (self.new.names ≡ self.old.names) }
        ensures after { IfOk result (λ m. m ≡ n) }
    {
        match action_in(self.alloc, &self.names, stmt)? {
            None => Ok(n),
            Some(action) => {
                self.put_onward(body, action, behind(stmt, exits))?;
                Ok(n)
            }
        }
    }

    /// Appends an action behind which one list comes.
    pub(crate) fn put_onward(
        &mut self,
        body: u32,
        action: Action,
        next: Option<u32>,
    ) -> Result<(), NoRoom>
        ensures nodes { OnOk result (self.new.nodes.items ≡ self.old.nodes.items ++ onward body action next ∷ []) }
        ensures len { OnOk result (vec_len self.new.nodes ≡ vec_len self.old.nodes + 1) }
        ensures names { OnOk result (self.new.names ≡ self.old.names) }
    {
        self.nodes.push(Node {
            action,
            next,
            other: next,
            cases: Cases::new(Vec::new(self.alloc)),
            body,
        })?;
        Ok(())
    }
}

fn behind(stmt: &Stmt, exits: Exits) -> Option<u32>
    ensures { result ≡ behind stmt.now exits }
{
    match &stmt.node {
        StmtNode::Break(_) => exits.past,
        StmtNode::Continue(_) => exits.again,
        StmtNode::Return(_, _) => None,
        _ => exits.next,
    }
}
