//! Small images of trees, of what lives alone, and trees that are made of them beside a later one.

ghost use Rattle.std.specs.Prelude.{ℕ, ◌≡◌, ◌<◌, ◌≤◌, List, length, map, take, IfOk, OnOk};
ghost use Rattle.cilk_spawn.specs.Cut.{IsCut};
ghost use Rattle.cilk_spawn.specs.Living.{IsLivingOf, WasThere};
ghost use Rattle.cilk_spawn.specs.LivingRecords.{id_at, cut_record, CopiedOf, PutTo};
ghost use Rattle.cilk_spawn.specs.Nodes.{Node};

use super::Tree;
use crate::living_image::LivingImage;
use crate::record::Record;
use cilk_frame::{Id, Memory};
use std::alloc::Global;

impl Tree {
    /// What lives now, as plain data.
    pub fn living_image(&self) -> Result<LivingImage, Memory>
        ensures { IfOk result (λ image. IsLivingOf image self.now.nodes) }
    {
        let alloc = *self.records.allocator();
        let ids = Vec::from_slice(alloc, self.living.as_slice())?;
        let records = copies_of(alloc, self.records.as_slice(), self.living.as_slice())?;
        Ok(LivingImage {
            count: self.records.len(),
            ids,
            records,
        })
    }

    /// The tree of which this was kept behind a choice, where a later one tells what had ended then.
    pub fn remade(living: &LivingImage, later: &Tree, choice: u64) -> Result<Tree, Memory>
        requires { WasThere choice living.now later.now.nodes }
        ensures { IfOk result (λ tree. (nodes : List Node) → IsLivingOf living.now nodes → IsCut choice nodes later.now.nodes → tree.nodes ≡ nodes) }
    {
        let alloc = *later.records.allocator();
        let ids = Vec::from_slice(alloc, living.ids.as_slice())?;
        let mut records = ended_before(alloc, later.records.as_slice(), living.count, choice)?;
        put_living(
            alloc,
            living.ids.as_slice(),
            living.records.as_slice(),
            &mut records,
        )?;
        Ok(Tree {
            records,
            living: ids,
        })
    }
}

// Copies of the records at these ids.
fn copies_of(alloc: Global, records: &[Record], ids: &[Id]) -> Result<Vec<Record>, Memory>
    requires { (k : ℕ) → k < length ids.now → id_at ids.now k < length records.now }
    ensures { IfOk result (λ made. CopiedOf (length ids.now) ids.now records.now made.items) }
{
    let mut made = Vec::with_capacity(alloc, ids.len())?;
    for id in ids {
        made.push(records[id.number()].copy(alloc)?)?;
    }
    Ok(made)
}

// The first of these records as they were behind a choice, of those that had ended then.
fn ended_before(
    alloc: Global,
    later: &[Record],
    count: usize,
    choice: u64,
) -> Result<Vec<Record>, Memory>
    requires { count ≤ length later.now }
    ensures { IfOk result (λ made. made.items ≡ map (cut_record choice) (take count later.now)) }
{
    let mut made = Vec::with_capacity(alloc, count)?;
    for i in 0..count {
        made.push(later[i].cut(choice))?;
    }
    Ok(made)
}

// Those that live are put at their ids.
fn put_living(
    alloc: Global,
    ids: &[Id],
    records: &[Record],
    made: &mut Vec<Record>,
) -> Result<(), Memory>
    requires len { length records.now ≡ length ids.now }
    requires within { (k : ℕ) → k < length ids.now → id_at ids.now k < length made.old.items }
    requires apart { (a b : ℕ) → a < length ids.now → b < length ids.now → id_at ids.now a ≡ id_at ids.now b → a ≡ b }
    ensures { OnOk result (PutTo (length ids.now) ids.now records.now made.old.items made.new.items) }
{
    for k in 0..ids.len() {
        match records[k].copy(alloc) {
            Err(memory) => return Err(memory),
            Ok(record) => made[ids[k].number()] = record,
        }
    }
    Ok(())
}
