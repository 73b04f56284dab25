//! The first fault in the names of a body. Each function takes the first fault that was found so far, and answers the
//! first of it and of those in its own part. Where it answers, the names are visible that are so behind its part.

ghost use Rattle.std.specs.Prelude.{◌≡◌, ◌++◌, [], ◌∷◌, IfOk, OnOk, flat_map, map};
ghost use Rattle.cilk_check_scopes.specs.syntax.Tree as tree;
ghost use Rattle.cilk_check_scopes.specs.syntax.Tree.{locals_of, stmts_of};
ghost use Rattle.cilk_check_scopes.specs.syntax.ProgramView.{parameters_of};
ghost use Rattle.cilk_check_scopes.specs.First.{first_among};
ghost use Rattle.cilk_check_scopes.specs.Scopes.{declare, declare_all, enter, local_declares, parameter, parameters_declare};
ghost use Rattle.cilk_check_scopes.specs.Declarations.{declaring};
ghost use Rattle.cilk_check_scopes.specs.Parts as parts;
ghost use Rattle.cilk_check.specs.NameFinds.{declaring_faults, part_faults, block_faults, locals_faults};
ghost use Rattle.cilk_check.specs.NameFinds.{inside_local, stmts_faults, inside_stmt, behind_locals, behind_block};

use crate::names_of_statement::at_stmt;
use crate::reserved::is_reserved;
use crate::table::SymbolTable;
use crate::uses::in_value;
use cilk_check_scopes::{
    Block, CheckFault, Decl, DeclarationKind, Local, LocalNode, Memory, Parameters, Shape, Stmt,
    StmtNode, Word, first_if,
};

/// A declaration in the innermost scope, which is visible behind it.
#[tactic(auto, using(crate::proofs::UseFaults::uses), unfolding(crate::specs::NameFinds::declaring_faults))]
pub(crate) fn at_declared<'a>(
    names: &mut SymbolTable<'a>,
    name: &'a Word,
    kind: DeclarationKind,
    found: Option<CheckFault>,
) -> Result<Option<CheckFault>, Memory>
    ensures first { IfOk result (λ f. f ≡ first_among found
        (declaring_faults (record { before = names.old.innermost; declared = record { name = name.now; kind = kind } }))) }
    ensures visible { OnOk result (names.new ≡ declare names.old (record { name = name.now; kind = kind })) }
{
    let again = names.is_declared_here(name.as_str());
    let found = first_if(found, again, CheckFault::Twice(name.at()));
    let found = first_if(
        found,
        is_reserved(name.as_str()),
        CheckFault::Reserved(name.at()),
    );
    names.declare(name, kind)?;
    Ok(found)
}

/// Parameters, which begin a scope.
#[tactic(auto, using(crate::proofs::Declarings::declarings))]
pub(crate) fn at_names<'a>(
    names: &mut SymbolTable<'a>,
    parameters: &'a [Word],
    found: Option<CheckFault>,
) -> Result<Option<CheckFault>, Memory>
    ensures first { IfOk result (λ f. f ≡ first_among found
        (flat_map declaring_faults (declaring names.old.innermost (map parameter parameters.now)))) }
    ensures visible { OnOk result (names.new ≡ declare_all names.old (map parameter parameters.now)) }
{
    let mut found = found;
    for name in parameters {
        found = at_declared(names, name, DeclarationKind::Variable, found)?;
    }
    Ok(found)
}

#[tactic(auto, using(crate::proofs::Declarings::declarings))]
pub(crate) fn at_parameters<'a>(
    names: &mut SymbolTable<'a>,
    parameters: &'a Parameters,
    found: Option<CheckFault>,
) -> Result<Option<CheckFault>, Memory>
    ensures first { IfOk result (λ f. f ≡ first_among found
        (flat_map declaring_faults (declaring names.old.innermost (parameters_declare (parameters_of parameters.now))))) }
    ensures visible { OnOk result (names.new ≡ declare_all names.old (parameters_declare (parameters_of parameters.now))) }
{
    match parameters {
        Parameters::Ints(parameters) => at_names(names, parameters, found),
        Parameters::CommandLine(count, strings) => {
            let found = at_declared(names, count, DeclarationKind::Variable, found)?;
            at_declared(names, strings, DeclarationKind::Strings, found)
        }
    }
}

// A declaration itself, without the parameters and the body of an inlet.
#[tactic(auto, using(crate::proofs::Declarings::declarings), unfolding(crate::specs::NameFinds::part_faults))]
fn at_local<'a>(
    names: &mut SymbolTable<'a>,
    local: &'a Local,
    found: Option<CheckFault>,
) -> Result<Option<CheckFault>, Memory>
    ensures first { IfOk result (λ f. f ≡ first_among found (part_faults names.old (parts.local local.now))) }
    ensures visible { OnOk result (names.new ≡ declare names.old (local_declares local.now)) }
{
    match &local.node {
        LocalNode::Decl(decl) => at_decl(names, decl, found),
        LocalNode::Inlet(inlet) => {
            let kind = DeclarationKind::Inlet(inlet.parameters.len());
            at_declared(names, &inlet.name, kind, found)
        }
    }
}

#[tactic(auto, using(crate::proofs::Declarings::declarings), unfolding(crate::specs::NameFinds::part_faults))]
fn at_decl<'a>(
    names: &mut SymbolTable<'a>,
    decl: &'a Decl,
    found: Option<CheckFault>,
) -> Result<Option<CheckFault>, Memory>
    ensures first { IfOk result (λ f. f ≡ first_among found (part_faults names.old (parts.local (tree.declared decl.now)))) }
    ensures visible { OnOk result (names.new ≡ declare names.old (local_declares (tree.declared decl.now))) }
{
    match &decl.shape {
        Shape::Variable(value) => {
            let found = at_declared(names, &decl.name, DeclarationKind::Variable, found)?;
            Ok(in_value(names, value, found))
        }
        Shape::Array(length) => at_declared(
            names,
            &decl.name,
            DeclarationKind::Array(*length),
            found,
        ),
    }
}

/// The parts of a block, in the scope that is open.
#[cycle(in_block)]
#[tactic(auto, using(crate::proofs::Declarings::declarings))]
pub(crate) fn in_block<'a>(
    names: &mut SymbolTable<'a>,
    block: &'a Block,
    found: Option<CheckFault>,
) -> Result<Option<CheckFault>, Memory>
    ensures first { IfOk result (λ f. f ≡ first_among found (block_faults names.old block.now)) }
    ensures visible { OnOk result (names.new ≡ behind_block names.old block.now) }
{
    let found = in_locals(names, &block.locals, found)?;
    in_stmts(names, &block.stmts, found)
}

#[cycle(in_block)]
#[tactic(auto, using(crate::proofs::Declarings::declarings))]
fn in_locals<'a>(
    names: &mut SymbolTable<'a>,
    locals: &'a [Local],
    found: Option<CheckFault>,
) -> Result<Option<CheckFault>, Memory>
    ensures first { IfOk result (λ f. f ≡ first_among found (locals_faults names.old (locals_of locals.now))) }
    ensures visible { OnOk result (names.new ≡ behind_locals names.old (locals_of locals.now)) }
{
    let mut found = found;
    for local in locals {
        found = at_local(names, local, found)?;
        found = inside_local(names, local, found)?;
    }
    Ok(found)
}

#[cycle(in_block)]
#[tactic(auto, using(crate::proofs::Declarings::declarings))]
fn inside_local<'a>(
    names: &mut SymbolTable<'a>,
    local: &'a Local,
    found: Option<CheckFault>,
) -> Result<Option<CheckFault>, Memory>
    ensures first { IfOk result (λ f. f ≡ first_among found (inside_local names.old local.now)) }
    ensures visible { OnOk result (names.new ≡ names.old) }
{
    match &local.node {
        LocalNode::Decl(_) => Ok(found),
        LocalNode::Inlet(inlet) => {
            let outer = names.enter();
            let found = at_names(names, &inlet.parameters, found)?;
            let found = in_block(names, &inlet.body, found)?;
            names.leave(outer)?;
            Ok(found)
        }
    }
}

#[cycle(in_block)]
#[tactic(auto, using(crate::proofs::Declarings::declarings))]
fn in_stmts<'a>(
    names: &mut SymbolTable<'a>,
    stmts: &'a [Stmt],
    found: Option<CheckFault>,
) -> Result<Option<CheckFault>, Memory>
    ensures first { IfOk result (λ f. f ≡ first_among found (stmts_faults names.old (stmts_of stmts.now))) }
    ensures visible { OnOk result (names.new ≡ names.old) }
{
    let mut found = found;
    for stmt in stmts {
        found = at_stmt(names, stmt, found);
        found = inside_stmt(names, stmt, found)?;
    }
    Ok(found)
}

#[cycle(in_block)]
#[tactic(auto, using(crate::proofs::Declarings::declarings))]
fn inside_stmt<'a>(
    names: &mut SymbolTable<'a>,
    stmt: &'a Stmt,
    found: Option<CheckFault>,
) -> Result<Option<CheckFault>, Memory>
    ensures first { IfOk result (λ f. f ≡ first_among found (inside_stmt names.old stmt.now)) }
    ensures visible { OnOk result (names.new ≡ names.old) }
{
    match &stmt.node {
        StmtNode::If(_, body, other) => {
            let found = in_inner_block(names, body, found)?;
            match other {
                None => Ok(found),
                Some(other) => in_inner_block(names, other, found),
            }
        }
        StmtNode::While(_, body)
        | StmtNode::Do(body, _)
        | StmtNode::For(_, _, _, body)
        | StmtNode::Switch(_, body) => in_inner_block(names, body, found),
        StmtNode::Nested(inside) => in_inner_block(names, inside, found),
        StmtNode::Move(_)
        | StmtNode::Spawn(_, _, _, _)
        | StmtNode::Print(_, _)
        | StmtNode::Locking(_, _)
        | StmtNode::Null
        | StmtNode::Sync(_)
        | StmtNode::Abort(_)
        | StmtNode::Break(_)
        | StmtNode::Continue(_)
        | StmtNode::Return(_, _)
        | StmtNode::Labelled(_) => Ok(found),
    }
}

#[cycle(in_block)]
#[tactic(auto, using(crate::proofs::Declarings::declarings))]
fn in_inner_block<'a>(
    names: &mut SymbolTable<'a>,
    block: &'a Block,
    found: Option<CheckFault>,
) -> Result<Option<CheckFault>, Memory>
    ensures first { IfOk result (λ f. f ≡ first_among found (block_faults (enter names.old) block.now)) }
    ensures visible { OnOk result (names.new ≡ names.old) }
{
    let outer = names.enter();
    let found = in_block(names, block, found)?;
    names.leave(outer)?;
    Ok(found)
}
