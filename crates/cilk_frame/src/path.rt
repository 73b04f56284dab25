//! Paths, which name instances by their descent from the root.

ghost use Rattle.std.specs.Prelude.{◌≡◌, [], IfOk};
ghost use Rattle.cilk_load_nodes.specs.syntax.Appends.{Appends};
ghost use Rattle.cilk_load_nodes.specs.model.Path.{path_text};

use cilk_load_nodes::Memory;
use std::alloc::Global;
use std::marker::Model;

/// The name of an instance: the root's path is empty, and a child's is that of its parent followed
/// by its own number among the children of that parent, from 1 on. Contracts see it as a list.
#[derive(Debug)]
pub struct Path {
    numbers: Vec<u32>,
}

// To drop it elsewhere is to call this, and its parts' drops are proved here alone.
impl Drop for Path {
    fn drop(self) {
        let Path { numbers: _numbers } = self;
    }
}

impl Model for Path {
    ghost use Rattle.std.specs.Prelude.{ℕ, List};

    ghost Value = { List ℕ };

    ghost view = { λ p. p.numbers.items };
}

impl Path {
    /// The path with these numbers, from the root's child down.
    pub fn new(numbers: Vec<u32>) -> Path
        ensures { result ≡ numbers.items }
    {
        Path { numbers }
    }

    /// The path of `main`'s instance. It takes no memory.
    pub fn root(alloc: Global) -> Path
        ensures { result ≡ [] }
    {
        Path::new(Vec::new(alloc))
    }

    /// The numbers from the root's child down.
    pub fn as_slice(&self) -> &[u32]
        ensures { result.now ≡ self.now }
    {
        self.numbers.as_slice()
    }

    /// Writes the path with these numbers behind a text: `/` for the root, and `/3/1` for the first child of the root's third.
    pub fn put_text(out: &mut String, numbers: &[u32]) -> Result<(), Memory>
        ensures { Appends result out.old out.new (path_text numbers.now) }
    {
        if numbers.is_empty() {
            out.push_str("/")?;
            return Ok(());
        }
        for number in numbers {
            write!(out, "/{number}")?;
        }
        Ok(())
    }

    /// An equal path.
    pub fn copy(&self, alloc: Global) -> Result<Path, Memory>
        ensures { IfOk result (λ path. path ≡ self.now) }
    {
        Ok(Path::new(Vec::from_slice(alloc, self.as_slice())?))
    }
}
