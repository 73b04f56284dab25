//! The table of the names that are visible, scope by scope.

ghost use Rattle.std.specs.Prelude.{◌≡◌, ◌++◌, ◌≤◌, ◌<◌, drop, length, [], is_some, option_map, OnOk, IfOk};
ghost use Rattle.cilk_check_scopes.specs.Scopes.{Scopes, declare, enter, meaning, declared_in};
ghost use Rattle.cilk_check.specs.Left.{left_of};

use crate::entry::Entry;
use crate::nearest::Nearest;
use cilk_check_scopes::{DeclarationKind, Memory, Word};
use std::alloc::Global;
use std::collections::BTreeMap;
use std::marker::Model;

/// The declarations that are visible, with the nearest of each name at hand.
#[derive(Drop)]
pub(crate) struct SymbolTable<'a> {
    nearest: BTreeMap<&'a str, Nearest>,
    entries: Vec<Entry<'a>>,
    /// The entries from this place on are those of the innermost scope.
    innermost: usize,
}

impl<'a> Model for SymbolTable<'a> {
    ghost use Rattle.cilk_check_scopes.specs.Scopes.{Scopes};
    ghost use Rattle.cilk_check.specs.Table.{scopes_of, IsTable};

    ghost Value = { Scopes };

    ghost view = { λ n. scopes_of n.innermost n.entries.items };

    ghost invariant = { λ n. IsTable n.nearest n.entries.items n.innermost };
}

impl<'a> SymbolTable<'a> {
    /// Nothing is visible.
    pub(crate) fn new(alloc: Global) -> SymbolTable<'a>
        ensures { result ≡ record { innermost = []; outer = [] } }
    {
        SymbolTable {
            nearest: BTreeMap::new(alloc),
            entries: Vec::new(alloc),
            innermost: 0,
        }
    }

    /// What a name is declared as, if it is visible.
    pub(crate) fn meaning(&self, name: &str) -> Option<DeclarationKind>
        ensures { result ≡ option_map (λ d. d.kind) (meaning self.now name.now) }
    {
        match self.nearest.get(name) {
            Some(nearest) => Some(nearest.kind),
            None => None,
        }
    }

    /// Whether the innermost scope declares a name.
    pub(crate) fn is_declared_here(&self, name: &str) -> bool
        ensures { result ≡ is_some (declared_in self.now.innermost name.now) }
    {
        match self.nearest.get(name) {
            Some(nearest) => nearest.at >= self.innermost,
            None => false,
        }
    }

    /// One more declaration in the innermost scope.
    pub(crate) fn declare(&mut self, name: &'a Word, kind: DeclarationKind) -> Result<(), Memory>
        ensures { OnOk result (self.new ≡ declare self.old (record { name = name.now; kind = kind })) }
    {
        let at = self.entries.len();
        let hidden = self.nearest.get(name.as_str()).copied();
        self.entries.push(Entry { name, kind, hidden })?;
        match self.nearest.insert(name.as_str(), Nearest { kind, at }) {
            Ok(_) => Ok(()),
            Err(failed) => {
                self.entries.pop();
                Err(Memory::from(failed))
            }
        }
    }

    /// Opens a scope. The answer is what `leave` has to be given.
    pub(crate) fn enter(&mut self) -> usize
        ensures outer { result ≡ length self.old.outer }
        ensures entered { self.new ≡ enter self.old }
    {
        let outer = self.innermost;
        self.innermost = self.entries.len();
        outer
    }

    // The newest declaration of the innermost scope is no longer visible.
    fn forget(&mut self) -> Result<(), Memory>
        requires { 0 < length self.now.innermost }
        ensures { OnOk result (self.new ≡ record { innermost = drop 1 self.old.innermost; outer = self.old.outer }) }
    {
        if let Some(entry) = self.entries.pop() {
            let text = entry.name.as_str();
            match entry.hidden {
                None => {
                    self.nearest.remove(text);
                }
                Some(hidden) => {
                    self.nearest.insert(text, hidden)?;
                }
            }
        }
        Ok(())
    }

    /// Closes the innermost scope, where `outer` is what `enter` answered.
    pub(crate) fn leave(&mut self, outer: usize) -> Result<(), Memory>
        requires { outer ≤ length self.now.outer }
        ensures { OnOk result (self.new ≡ left_of outer self.old.outer) }
    {
        self.forget_all()?;
        self.innermost = outer;
        Ok(())
    }

    // No declaration of the innermost scope is visible any more.
    fn forget_all(&mut self) -> Result<(), Memory>
        ensures { OnOk result (self.new ≡ record { innermost = []; outer = self.old.outer }) }
    {
        for _ in self.innermost..self.entries.len() {
            self.forget()?;
        }
        Ok(())
    }
}
