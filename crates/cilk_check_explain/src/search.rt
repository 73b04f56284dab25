//! Where the declaration of a name stands.

use crate::declared::Declared;
use crate::site::Site;
use crate::source::Source;
use cilk_check_scopes::{
    Block, Decl, DeclarationKind, GlobalShape, Item, ItemNode, Local, LocalNode, Parameters, Proc,
    Program, Shape, Stmt, StmtNode, Word,
};

/// A name, and where it stands; and whether a declaration is sought that is not visible from there too.
#[derive(Clone, Copy)]
struct Sought<'a> {
    source: &'a Source<'a>,
    name: &'a str,
    at: u32,
    is_anywhere: bool,
}

impl<'a> Sought<'a> {
    // What is found so far, or the declaration of this word, where that is nearer. So many braces of its scope are open at
    // the word.
    fn nearer(
        &self,
        found: Option<Declared>,
        word: &Word,
        kind: DeclarationKind,
        braces: usize,
    ) -> Option<Declared> {
        let at = word.at();
        if word.as_str() != self.name {
            return found;
        }
        if self.is_anywhere || (at < self.at && self.source.is_open(at, self.at, braces)) {
            return Some(Declared { at, kind });
        }
        found
    }

    fn among(&self, parameters: &[Word], found: Option<Declared>) -> Option<Declared> {
        let mut found = found;
        for word in parameters {
            found = self.nearer(found, word, DeclarationKind::Variable, 0);
        }
        found
    }
}

fn kind_of_decl(decl: &Decl) -> DeclarationKind {
    match &decl.shape {
        Shape::Variable(_) => DeclarationKind::Variable,
        Shape::Array(length) => DeclarationKind::Array(*length),
    }
}

#[cycle(in_block)]
fn in_block(sought: &Sought<'_>, block: &Block, found: Option<Declared>) -> Option<Declared> {
    let mut found = found;
    for local in &block.locals {
        found = in_local(sought, local, found);
    }
    for stmt in &block.stmts {
        found = in_stmt(sought, stmt, found);
    }
    found
}

#[cycle(in_block)]
fn in_local(sought: &Sought<'_>, local: &Local, found: Option<Declared>) -> Option<Declared> {
    match &local.node {
        LocalNode::Decl(decl) => sought.nearer(found, &decl.name, kind_of_decl(decl), 1),
        LocalNode::Inlet(inlet) => {
            let kind = DeclarationKind::Inlet(inlet.parameters.len());
            let found = sought.nearer(found, &inlet.name, kind, 1);
            let found = sought.among(&inlet.parameters, found);
            in_block(sought, &inlet.body, found)
        }
    }
}

#[cycle(in_block)]
fn in_stmt(sought: &Sought<'_>, stmt: &Stmt, found: Option<Declared>) -> Option<Declared> {
    match &stmt.node {
        StmtNode::If(_, body, None)
        | StmtNode::While(_, body)
        | StmtNode::Do(body, _)
        | StmtNode::For(_, _, _, body)
        | StmtNode::Switch(_, body)
        | StmtNode::Nested(body) => in_block(sought, body, found),
        StmtNode::If(_, body, Some(other)) => {
            let found = in_block(sought, body, found);
            in_block(sought, other, found)
        }
        _ => found,
    }
}

fn in_procedure(
    sought: &Sought<'_>,
    procedure: &Proc,
    found: Option<Declared>,
) -> Option<Declared> {
    let found = match &procedure.parameters {
        Parameters::Ints(names) => sought.among(names, found),
        Parameters::CommandLine(count, strings) => {
            let found = sought.nearer(found, count, DeclarationKind::Variable, 0);
            sought.nearer(found, strings, DeclarationKind::Strings, 0)
        }
    };
    in_block(sought, &procedure.body, found)
}

fn kind_of_procedure(procedure: &Proc) -> DeclarationKind {
    let count = match &procedure.parameters {
        Parameters::Ints(names) => names.len(),
        Parameters::CommandLine(_, _) => 1,
    };
    if procedure.is_cilk {
        DeclarationKind::Procedure(procedure.returns, count)
    } else {
        DeclarationKind::Function(procedure.returns, count)
    }
}

// What an item declares, where it is of this name.
fn declared_by(item: &Item, name: &str) -> Option<Declared> {
    let (word, kind) = match &item.node {
        ItemNode::Global(global) => match global.shape {
            GlobalShape::Variable(_) => (&global.name, DeclarationKind::Variable),
            GlobalShape::Array(length) => (&global.name, DeclarationKind::Array(length)),
        },
        ItemNode::Lock(word) => (word, DeclarationKind::Lock),
        ItemNode::Procedure(procedure) => (&procedure.name, kind_of_procedure(procedure)),
        ItemNode::Prototype(_) => return None,
    };
    (word.as_str() == name).then_some(Declared {
        at: word.at(),
        kind,
    })
}

/// The first declaration of a name at the top level.
pub(crate) fn declared_in_file(program: &Program, name: &str) -> Option<Declared> {
    for item in &program.items {
        let found = declared_by(item, name);
        if found.is_some() {
            return found;
        }
    }
    None
}

/// Whether a program starts with the words of the command line (C 1990, 5.1.2.2.1).
pub(crate) fn has_command_line(program: &Program) -> bool {
    for item in &program.items {
        if let ItemNode::Procedure(procedure) = &item.node {
            if matches!(&procedure.parameters, Parameters::CommandLine(_, _)) {
                return true;
            }
        }
    }
    false
}

/// The last declaration in a body of the name at a place: one that is visible from there, or any.
pub(crate) fn in_bodies(site: &Site<'_, '_>, is_anywhere: bool) -> Option<Declared> {
    let sought = Sought {
        source: &site.front.source,
        name: site.word(),
        at: site.at,
        is_anywhere,
    };
    let program = site.program;
    let mut found = None;
    for item in &program.items {
        if let ItemNode::Procedure(procedure) = &item.node {
            found = in_procedure(&sought, procedure, found);
        }
    }
    found
}

/// What the name at a place means (C 1990, 6.1.2.1).
pub(crate) fn meaning(site: &Site<'_, '_>) -> Option<Declared> {
    in_bodies(site, false).or(declared_in_file(site.program, site.word()))
}

/// The definition that a place stands in, behind its name.
pub(crate) fn procedure_around(program: &Program, at: u32) -> Option<&Proc> {
    let mut found = None;
    for item in &program.items {
        if let ItemNode::Procedure(procedure) = &item.node {
            if procedure.name.at() < at {
                found = Some(procedure);
            }
        }
    }
    found
}
