//! The expressions that the workers of a run evaluate without the lock.

ghost use Rattle.std.specs.Prelude.{◌≡◌, ◌<◌, length, IfOk, IfSome, Some};
ghost use Rattle.cilk_run.specs.step.Peeks.{code_at};
ghost use Rattle.cilk_run.specs.Turning.{IsListed};

use crate::table::Setting;
use cilk_run_locked::{Listed, Loaded, Memory, code_numbered};
use std::alloc::Global;
use std::marker::{Model, PhantomData};

// An expression with no more operators than so many is evaluated under the lock, since to take it twice costs as much.
const FEW_OPERATORS: u32 = 16;

/// For each action, from 1 on, the expression that it evaluates, where it has many operators and may be seen beforehand. Empty where no action
/// has such a one.
#[derive(Drop)]
pub struct Ahead<J: Setting> {
    expressions: Vec<Option<Listed>>,
    of: PhantomData<J>,
}

impl<J: Setting> Model for Ahead<J> {
    ghost use Rattle.std.specs.Prelude.{List, Option};
    ghost use Rattle.cilk_run.specs.labelled.Term.{Term};
    ghost use Rattle.cilk_run.specs.machine.nodes.Coding.{coded_Term};
    ghost use Rattle.cilk_run.specs.machine.nodes.declared.slot.Slot.{Slot};
    ghost use Rattle.cilk_run.specs.Turning.{IsListed};
    ghost use Rattle.std.specs.Coded.{codes};

    ghost Value = { List (Option (Term Slot)) };

    ghost coded = { Prim.hlevel (codes, coded_Term) };

    ghost view = { λ a. a.expressions.items };

    ghost invariant = { λ a. IsListed J.program a.expressions.items };
}

impl<J: Setting> Ahead<J> {
    /// Those of a program.
    pub fn new(alloc: Global, program: &Loaded) -> Result<Ahead<J>, Memory>
        requires { program.now ≡ J.program }
    {
        let expressions = all_listed(alloc, program)?;
        Ok(Ahead {
            expressions,
            of: PhantomData,
        })
    }

    /// All of them, by the numbers of their actions.
    pub fn expressions(&self) -> &[Option<Listed>]
        ensures { result.now ≡ self.now }
    {
        self.expressions.as_slice()
    }

    /// That of action n.
    pub fn of(&self, n: u32) -> Option<&Listed>
        ensures { IfSome result (λ listed. code_at J.program n ≡ Some listed.now) }
    {
        match self.expressions.get(n.checked_sub(1)? as usize) {
            Some(Some(listed)) => Some(listed),
            _ => None,
        }
    }
}

// No more than the program has actions, and none where none has many operators.
fn all_listed(alloc: Global, program: &Loaded) -> Result<Vec<Option<Listed>>, Memory>
    ensures { IfOk result (λ expressions. IsListed program.now expressions.items) }
{
    let mut expressions = Vec::new(alloc);
    let mut has_some = false;
    for before in 0..program.count() {
        let listed = listed(alloc, program, before + 1)?;
        has_some = has_some || listed.is_some();
        expressions.push(listed)?;
    }
    if !has_some {
        expressions.clear();
    }
    Ok(expressions)
}

fn listed(alloc: Global, program: &Loaded, n: u32) -> Result<Option<Listed>, Memory>
    ensures { IfOk result (λ o. IfSome o (λ listed. code_at program.now n ≡ Some listed)) }
{
    match code_numbered(program, n) {
        Some(code) if code.has_more_operators(FEW_OPERATORS) => {
            Ok(Some(Listed::new(alloc, code)?))
        }
        _ => Ok(None),
    }
}
