//! The nodes of whole bodies: of functions and procedures, and of the inlets in them.

ghost use Rattle.std.specs.Prelude.{◌≡◌, ◌+◌, ◌≤◌, ◌<◌, ◌^◌, [], ◌∷◌, ◌++◌, IfOk, OnOk, length, vec_len};
ghost use Rattle.cilk_tree_syntax.specs.Tree as tree;
ghost use Rattle.cilk_tree_syntax.specs.Tree.{stmts_of, locals_of};
ghost use Rattle.cilk_tree_syntax.specs.ProgramView.{parameters_of};
ghost use Rattle.cilk_load_nodes.specs.labelled.Count.{count_block, count_locals, count_item, count_items};
ghost use Rattle.cilk_load_nodes.specs.labelled.Label.{locals_variables};
ghost use Rattle.cilk_load_nodes.specs.labelled.Bodies.{parameter_variables, inlet_count, body_count};
ghost use Rattle.cilk_load_nodes.specs.Plain.{PlainBlock, OuterLocals, OuterBlock, PlainItem, PlainItems};
ghost use Rattle.cilk_load_nodes.specs.scopes.Scopes.{parameters_declare};
ghost use Rattle.cilk_load_nodes.specs.Slots.{nowhere};
ghost use Rattle.cilk_load.specs.Scope.{declared};
ghost use Rattle.cilk_load.specs.Pass.{bound_number};
ghost use Rattle.cilk_load.specs.Outer.{vars_at, body_exits, words_scope, parameters_scope};
ghost use Rattle.cilk_load.specs.Outer.{inlet_nodes, outer_nodes, outer_scope, body_nodes, item_nodes, items_nodes};

use crate::binding::Binding;
use crate::counts::{actions_in, actions_of_locals, actions_of_stmts};
use crate::exits::Exits;
use crate::firsts::first_if;
use crate::numbering::bound_var;
use crate::pass::{Pass, Site};
use crate::room::NoRoom;
use crate::symbol_table::{SymbolTable, nowhere};
use cilk_load_nodes::{Action, Body, Var};
use cilk_tree_syntax::{Block, Inlet, Item, ItemNode, Local, LocalNode, Parameters, Proc, Word};

/// What stands for a lock or a body.
pub(crate) fn bound_number(number: u32) -> Binding
    ensures { result ≡ record { slot = nowhere; number = number } }
{
    Binding {
        slot: nowhere(),
        number,
    }
}

fn vars_at(bodies: &[Body], b: u32) -> &[Var]
    ensures { result.now ≡ vars_at bodies.now b }
{
    match bodies.get(b as usize) {
        Some(body) => body.vars.as_slice(),
        None => &[],
    }
}

fn body_exits(closing: u32) -> Exits
    ensures { result ≡ body_exits closing }
{
    Exits {
        next: Some(closing),
        past: None,
        again: None,
    }
}

// The names of parameters, the first of which is variable n.
fn put_words<'a>(
    names: &mut SymbolTable<'a>,
    vars: &[Var],
    n: u32,
    words: &'a [Word],
) -> Result<u32, NoRoom>
    ensures names { OnOk result (names.new ≡ words_scope vars.now n words.now names.old) }
    ensures after { IfOk result (λ m. m ≡ n + length words.now) }
{
    let mut n = n;
    for word in words {
        names.declare(word, bound_var(vars, n))?;
        n = n.checked_add(1).ok_or(NoRoom::TooLarge)?;
    }
    Ok(n)
}

// How many variables the parameters are is answered.
fn put_parameters<'a>(
    names: &mut SymbolTable<'a>,
    vars: &[Var],
    parameters: &'a Parameters,
) -> Result<u32, NoRoom>
    ensures names { OnOk result (names.new ≡ parameters_scope vars.now (parameters_of parameters.now) names.old) }
    ensures after { IfOk result (λ m. m ≡ length (parameter_variables (parameters_of parameters.now))) }
{
    match parameters {
        Parameters::Ints(words) => put_words(names, vars, 0, words),
        Parameters::CommandLine(count, strings) => {
            names.declare(count, bound_var(vars, 0))?;
            names.declare(strings, bound_number(0))?;
            Ok(1)
        }
    }
}

impl<'a> Pass<'a> {
    // An inlet, whose body is body k, where its name is visible.
    fn put_inlet(
        &mut self,
        bodies: &[Body],
        k: u32,
        parameters: &'a [Word],
        body: &'a Block,
    ) -> Result<(), NoRoom>
        requires room { vec_len self.old.nodes + count_block body.now ≤ 65534 }
        requires plain { PlainBlock body.now }
        ensures nodes { OnOk result (self.new.nodes.items ≡ self.old.nodes.items
            ++ inlet_nodes bodies.now k self.old.names (vec_len self.old.nodes + 1) parameters.now body.now) }
        ensures len { OnOk result (vec_len self.new.nodes ≡ vec_len self.old.nodes + (count_block body.now + 1)) }
        ensures names { OnOk result (self.new.names ≡ self.old.names) }
    {
        let site = Site {
            body: k,
            vars: vars_at(bodies, k),
        };
        let exits = body_exits(self.at() + actions_in(body));
        let outer = self.names.enter();
        let n = put_words(&mut self.names, site.vars, 0, parameters)?;
        self.put_block(site, n, body, exits)?;
        self.put_onward(k, Action::Close, None)?;
        self.names.forget(parameters.len())?;
        self.names.leave(outer)?;
        Ok(())
    }

    // An inlet and its name, which remains visible. The number of the next inlet's body is answered.
    fn put_named_inlet(&mut self, bodies: &[Body], k: u32, inlet: &'a Inlet) -> Result<u32, NoRoom>
        requires room { vec_len self.old.nodes + count_block inlet.now.body ≤ 65534 }
        requires plain { PlainBlock inlet.now.body }
        ensures nodes { OnOk result (self.new.nodes.items ≡ self.old.nodes.items
            ++ inlet_nodes bodies.now k (declared self.old.names (bound_number k inlet.now.name)) (vec_len self.old.nodes + 1)
            inlet.now.parameters.items inlet.now.body) }
        ensures len { OnOk result (vec_len self.new.nodes ≡ vec_len self.old.nodes + (count_block inlet.now.body + 1)) }
        ensures names { OnOk result (self.new.names ≡ declared self.old.names (bound_number k inlet.now.name)) }
        ensures after { IfOk result (λ after. after ≡ k + 1) }
    {
        self.names.declare(&inlet.name, bound_number(k))?;
        self.put_inlet(bodies, k, &inlet.parameters, &inlet.body)?;
        k.checked_add(1).ok_or(NoRoom::TooLarge)
    }

    // The declarations of the outermost block of a body, whose next inlet has body k. They remain visible.
    fn put_outer_locals(
        &mut self,
        bodies: &[Body],
        b: u32,
        k: u32,
        n: u32,
        locals: &'a [Local],
        next: Option<u32>,
    ) -> Result<u32, NoRoom>
        requires room { vec_len self.old.nodes + count_locals (locals_of locals.now) ≤ 65534 }
        requires plain { OuterLocals (locals_of locals.now) }
        ensures nodes { OnOk result (self.new.nodes.items ≡ self.old.nodes.items
            ++ outer_nodes bodies.now b k self.old.names (vec_len self.old.nodes + 1) n (locals_of locals.now) next) }
        ensures len { OnOk result (vec_len self.new.nodes ≡ vec_len self.old.nodes + count_locals (locals_of locals.now)) }
        ensures names { OnOk result (self.new.names ≡ outer_scope (vars_at bodies.now b) k n (locals_of locals.now) self.old.names) }
        ensures after { IfOk result (λ m. m ≡ n + length (locals_variables (locals_of locals.now))) }
    {
        let site = Site {
            body: b,
            vars: vars_at(bodies, b),
        };
        let mut k = k;
        let mut n = n;
        for (i, local) in locals.iter().enumerate() {
            match &local.node {
                LocalNode::Decl(decl) => {
                    n = self.put_decl(site, n, decl, &locals[i + 1..], next)?;
                }
                LocalNode::Inlet(inlet) => {
                    k = self.put_named_inlet(bodies, k, inlet)?;
                }
            }
        }
        Ok(n)
    }

    // Body b, of which n variables are parameters, which are visible.
    fn put_body(&mut self, bodies: &[Body], b: u32, n: u32, block: &'a Block) -> Result<(), NoRoom>
        requires room { vec_len self.old.nodes + count_block block.now ≤ 65534 }
        requires plain { OuterBlock block.now }
        ensures nodes { OnOk result (self.new.nodes.items ≡ self.old.nodes.items
            ++ body_nodes bodies.now b self.old.names (vec_len self.old.nodes + 1) n block.now) }
        ensures len { OnOk result (vec_len self.new.nodes ≡ vec_len self.old.nodes + (count_block block.now + 1)) }
        ensures names { OnOk result (self.new.names ≡ self.old.names) }
    {
        let middle = self.at() + actions_of_locals(&block.locals);
        let stmts = actions_of_stmts(&block.stmts);
        let closing = middle + stmts;
        let first = first_if(stmts, middle, Some(closing));
        let k = b.checked_add(1).ok_or(NoRoom::TooLarge)?;
        let site = Site {
            body: b,
            vars: vars_at(bodies, b),
        };
        let n = self.put_outer_locals(bodies, b, k, n, &block.locals, first)?;
        self.put_stmts(site, n, &block.stmts, body_exits(closing))?;
        self.put_onward(b, Action::Close, None)?;
        self.names.forget(block.locals.len())?;
        Ok(())
    }

    fn put_procedure(&mut self, bodies: &[Body], b: u32, definition: &'a Proc) -> Result<(), NoRoom>
        requires room { vec_len self.old.nodes + count_item (tree.procedure definition.now) ≤ 65535 }
        requires plain { PlainItem (tree.procedure definition.now) }
        ensures nodes { OnOk result (self.new.nodes.items ≡ self.old.nodes.items
            ++ item_nodes bodies.now b self.old.names (vec_len self.old.nodes + 1) (tree.procedure definition.now)) }
        ensures len { OnOk result (vec_len self.new.nodes ≡ vec_len self.old.nodes + count_item (tree.procedure definition.now)) }
        ensures names { OnOk result (self.new.names ≡ self.old.names) }
    {
        let outer = self.names.enter();
        let vars = vars_at(bodies, b);
        let n = put_parameters(&mut self.names, vars, &definition.parameters)?;
        self.put_body(bodies, b, n, &definition.body)?;
        self.names.forget(names_of(&definition.parameters))?;
        self.names.leave(outer)?;
        Ok(())
    }

    fn put_item(&mut self, bodies: &[Body], b: u32, item: &'a Item) -> Result<u32, NoRoom>
        requires room { vec_len self.old.nodes + count_item item.now ≤ 65535 }
        requires plain { PlainItem item.now }
        ensures nodes { OnOk result (self.new.nodes.items ≡ self.old.nodes.items
            ++ item_nodes bodies.now b self.old.names (vec_len self.old.nodes + 1) item.now) }
        ensures len { OnOk result (vec_len self.new.nodes ≡ vec_len self.old.nodes + count_item item.now) }
        ensures names { OnOk result (self.new.names ≡ self.old.names) }
        ensures after { IfOk result (λ after. after ≡ b + body_count item.now) }
    {
        match &item.node {
            ItemNode::Procedure(definition) => {
                self.put_procedure(bodies, b, definition)?;
                bodies_behind(b, definition)
            }
            ItemNode::Global(_) => Ok(b),
            ItemNode::Lock(_) => Ok(b),
            ItemNode::Prototype(_) => Ok(b),
        }
    }

    /// Appends the nodes of these items, where the names of the file are visible.
    pub(crate) fn put_items(&mut self, bodies: &[Body], items: &'a [Item]) -> Result<(), NoRoom>
        requires room { vec_len self.old.nodes + count_items items.now ≤ 65535 }
        requires plain { PlainItems items.now }
        ensures nodes { OnOk result (self.new.nodes.items ≡ self.old.nodes.items
            ++ items_nodes bodies.now 0 self.old.names (vec_len self.old.nodes + 1) items.now) }
        ensures len { OnOk result (vec_len self.new.nodes ≡ vec_len self.old.nodes + count_items items.now) }
    {
        let mut b = 0;
        for item in items {
            b = self.put_item(bodies, b, item)?;
        }
        Ok(())
    }
}

// How many names parameters are.
fn names_of(parameters: &Parameters) -> usize
    ensures { result ≡ length (parameters_declare (parameters_of parameters.now)) }
{
    match parameters {
        Parameters::Ints(words) => words.len(),
        Parameters::CommandLine(_, _) => 2,
    }
}

/// The number of the next body behind those of a definition.
pub(crate) fn bodies_behind(b: u32, definition: &Proc) -> Result<u32, NoRoom>
    ensures { IfOk result (λ after. after ≡ b + body_count (tree.procedure definition.now)) }
{
    let mut after = b.checked_add(1).ok_or(NoRoom::TooLarge)?;
    let body = &definition.body;
    for local in &body.locals {
        match &local.node {
            LocalNode::Decl(_) => {}
            LocalNode::Inlet(_) => after = after.checked_add(1).ok_or(NoRoom::TooLarge)?,
        }
    }
    Ok(after)
}
