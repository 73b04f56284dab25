//! Images of trees, and trees that are made of them.

ghost use Rattle.std.specs.Prelude.{◌≡◌, IfOk};
ghost use Rattle.cilk_spawn.specs.Records.{nodes_of, Alike};

use super::Tree;
use crate::record::Record;
use crate::tree_image::TreeImage;
use cilk_frame::Memory;
use std::alloc::Global;

impl Tree {
    /// What it is now, as plain data.
    pub fn image(&self) -> Result<TreeImage, Memory>
        ensures { IfOk result (λ image. image ≡ self.now) }
    {
        Ok(TreeImage { tree: self.copy()? })
    }

    /// A tree as that was.
    pub fn restore(image: &TreeImage) -> Result<Tree, Memory>
        ensures { IfOk result (λ tree. tree ≡ image.now) }
    {
        image.tree.copy()
    }

    fn copy(&self) -> Result<Tree, Memory>
        ensures { IfOk result (λ tree. tree ≡ self.now) }
    {
        let alloc = *self.records.allocator();
        let living = Vec::from_slice(alloc, self.living.as_slice())?;
        let records = copies(alloc, self.records.as_slice())?;
        Ok(Tree { records, living })
    }
}

fn copies(alloc: Global, records: &[Record]) -> Result<Vec<Record>, Memory>
    ensures nodes { IfOk result (λ made. nodes_of made.items ≡ nodes_of records.now) }
    ensures beside { IfOk result (λ made. Alike records.now made.items) }
{
    let mut made = Vec::with_capacity(alloc, records.len())?;
    for record in records {
        made.push(record.copy(alloc)?)?;
    }
    Ok(made)
}
