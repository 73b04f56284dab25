//! With which number a part begins.

ghost use Rattle.std.specs.Prelude.{◌≡◌, ◌+◌, ◌≤◌};
ghost use Rattle.cilk_tree_syntax.specs.Tree.{locals_of};
ghost use Rattle.cilk_load_nodes.specs.labelled.Count.{count_locals, count_block};
ghost use Rattle.cilk_load.specs.Firsts.{first_if, block_first, is_initialised, locals_first};

use crate::counts::{actions_in, count_local, count_shape};
use cilk_tree_syntax::{Block, Local, LocalNode};

/// The number with which so many actions begin, or what comes behind them.
pub fn first_if(count: u32, at: u32, next: Option<u32>) -> Option<u32>
    ensures { result ≡ first_if count at next }
{
    if count == 0 { next } else { Some(at) }
}

/// The number of the first action of a block, or what comes behind it.
pub fn block_first(block: &Block, at: u32, next: Option<u32>) -> Option<u32>
    requires { count_block block.now ≤ 65535 }
    ensures { result ≡ block_first at block.now next }
{
    first_if(actions_in(block), at, next)
}

/// The number of the first initialiser among these declarations, or what comes behind them.
pub fn locals_first(locals: &[Local], at: u32, next: Option<u32>) -> Option<u32>
    requires { at + count_locals (locals_of locals.now) ≤ 65536 }
    ensures { result ≡ locals_first at (locals_of locals.now) next }
{
    let mut at = at;
    for local in locals {
        if is_initialised(local) {
            return Some(at);
        }
        at += count_local(local);
    }
    next
}

fn is_initialised(local: &Local) -> bool
    ensures { result ≡ is_initialised local.now }
{
    match &local.node {
        LocalNode::Decl(decl) => count_shape(&decl.shape) > 0,
        LocalNode::Inlet(_) => false,
    }
}
