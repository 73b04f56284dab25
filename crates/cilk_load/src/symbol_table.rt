//! What names stand for, with the nearest declaration of each name at hand.

ghost use Rattle.std.specs.Prelude.{◌≡◌, ◌≤◌, ◌<◌, drop, length, [], ◌∷◌, OnOk};
ghost use Rattle.cilk_load_nodes.specs.Slots.{nowhere};
ghost use Rattle.cilk_load.specs.Scope.{found, visible, outward_area, outward, entered, declared, left_of, unknown_name};
ghost use Rattle.cilk_load.specs.Shown.{told};

use crate::binding::Binding;
use crate::entry::Entry;
use crate::nearest::Nearest;
use cilk_load_nodes::{Area, Slot};
use cilk_tree_syntax::{Memory, Word};
use std::alloc::Global;
use std::collections::BTreeMap;
use std::marker::Model;

/// The declarations that are visible. Those of the innermost body come last.
#[derive(Drop)]
pub struct SymbolTable<'a> {
    nearest: BTreeMap<&'a str, Nearest>,
    entries: Vec<Entry<'a>>,
    /// The entries from this place on are those of the innermost body.
    innermost: usize,
}

impl<'a> Model for SymbolTable<'a> {
    ghost use Rattle.cilk_load.specs.Scope.{Scope};
    ghost use Rattle.cilk_load.specs.Shown.{scope_of, IsTable};

    ghost Value = { Scope };

    ghost view = { λ n. scope_of n.innermost n.entries.items };

    ghost invariant = { λ n. IsTable n.nearest n.entries.items n.innermost };
}

impl<'a> SymbolTable<'a> {
    /// Nothing is visible.
    pub fn new(alloc: Global) -> SymbolTable<'a>
        ensures { result ≡ record { innermost = []; outer = [] } }
    {
        SymbolTable {
            nearest: BTreeMap::new(alloc),
            entries: Vec::new(alloc),
            innermost: 0,
        }
    }

    /// What a name stands for. In a program that passed the check no other name is used.
    pub fn binding(&self, name: &str) -> Binding
        ensures { result ≡ found (visible self.now) name.now }
    {
        match self.nearest.get(name) {
            Some(nearest) => told(self.innermost, *nearest),
            None => unknown_name(),
        }
    }

    /// One more declaration in the innermost body.
    pub fn declare(&mut self, name: &'a Word, binding: Binding) -> Result<(), Memory>
        ensures { OnOk result (self.new ≡ declared self.old (record { name = name.now.text; binding = binding })) }
    {
        let at = self.entries.len();
        let hidden = self.nearest.get(name.as_str()).copied();
        self.entries.push(Entry {
            name,
            binding,
            hidden,
        })?;
        match self.nearest.insert(name.as_str(), Nearest { binding, at }) {
            Ok(_) => Ok(()),
            Err(failed) => {
                self.entries.pop();
                Err(Memory::from(failed))
            }
        }
    }

    /// Opens a body. The answer is what `leave` has to be given.
    pub fn enter(&mut self) -> usize
        ensures outer { result ≡ length self.old.outer }
        ensures entered { self.new ≡ entered self.old }
    {
        let outer = self.innermost;
        self.innermost = self.entries.len();
        outer
    }

    // The newest declaration of the innermost body is no longer visible.
    fn forget_one(&mut self) -> Result<(), Memory>
        requires { 0 < length self.now.innermost }
        ensures { OnOk result (self.new ≡ record { innermost = drop 1 self.old.innermost; outer = self.old.outer }) }
    {
        if let Some(entry) = self.entries.pop() {
            let text = entry.name.as_str();
            match entry.hidden {
                None => {
                    self.nearest.remove(text);
                }
                Some(hidden) => {
                    self.nearest.insert(text, hidden)?;
                }
            }
        }
        Ok(())
    }

    /// So many of the newest declarations of the innermost body are no longer visible.
    pub fn forget(&mut self, count: usize) -> Result<(), Memory>
        requires { count ≤ length self.now.innermost }
        ensures { OnOk result (self.new ≡ record { innermost = drop count self.old.innermost; outer = self.old.outer }) }
    {
        for _ in 0..count {
            self.forget_one()?;
        }
        Ok(())
    }

    /// Closes the innermost body, where `outer` is what `enter` answered.
    pub fn leave(&mut self, outer: usize) -> Result<(), Memory>
        requires { outer ≤ length self.now.outer }
        ensures { OnOk result (self.new ≡ left_of outer self.old.outer) }
    {
        self.forget_all()?;
        self.innermost = outer;
        Ok(())
    }

    // No declaration of the innermost body is visible any more.
    fn forget_all(&mut self) -> Result<(), Memory>
        ensures { OnOk result (self.new ≡ record { innermost = []; outer = self.old.outer }) }
    {
        for _ in self.innermost..self.entries.len() {
            self.forget_one()?;
        }
        Ok(())
    }
}

// What a declaration stands for in the innermost body, which begins at a place.
fn told(innermost: usize, nearest: Nearest) -> Binding
    ensures { result ≡ told innermost nearest }
{
    if nearest.at < innermost {
        outward(nearest.binding)
    } else {
        nearest.binding
    }
}

fn outward(binding: Binding) -> Binding
    ensures { result ≡ outward binding }
{
    let slot = Slot {
        area: outward_area(binding.slot.area),
        offset: binding.slot.offset,
        length: binding.slot.length,
    };
    Binding {
        slot,
        number: binding.number,
    }
}

fn outward_area(area: Area) -> Area
    ensures { result ≡ outward_area area }
{
    match area {
        Area::Own => Area::Outer,
        Area::Outer => Area::Outer,
        Area::Global => Area::Global,
    }
}

/// What stands for no variable.
pub fn nowhere() -> Slot
    ensures { result ≡ nowhere }
{
    Slot {
        area: Area::Global,
        offset: 0,
        length: 0,
    }
}

fn unknown_name() -> Binding
    ensures { result ≡ unknown_name }
{
    Binding {
        slot: nowhere(),
        number: 0,
    }
}
