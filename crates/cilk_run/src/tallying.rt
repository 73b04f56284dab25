//! `tally_of_seeds`: which outcomes the runs by one seed after another have, and how many have each.

ghost use Rattle.std.specs.Prelude.{◌≡◌, ◌≢◌, ◌<◌, ◌≤◌, ◌-◌, ◌^◌, ◌⊎◌, Err, IfOk, IfErr, OnOk, List, [], ◌∷◌, map};
ghost use Rattle.cilk_run.specs.labelled.Bodies.{label};
ghost use Rattle.cilk_run.specs.Tallied as model;
ghost use Rattle.cilk_run.specs.Tallied.{IsRanked, IsTallyText, bumped, outcome_of, outcomes_from, tally, tally_text};
ghost use Rattle.cilk_run.specs.Tallying.{AreAtMost, added, has_row, outcome_by, rows_by};

use crate::outcome::{Outcome, outcome_of};
use crate::row::Row;
use crate::run_result::RunFault;
use crate::tally_rows::told;
use cilk_run_locked::Loaded;
use std::alloc::{AllocError, Global};

/// Makes the runs of so many seeds, from one on, as `run_by_seed` makes them, and tells which outcomes they have: what was printed, and the words of the
/// closing line. An outcome is told with the number of runs that have it and the seed of the first of them; more runs come first, and of as
/// many the smaller seed. One worker has nothing to draw, so one run stands for all then.
pub fn tally_of_seeds(
    alloc: Global,
    program: &Loaded,
    workers: u8,
    limit: u32,
    seed: u32,
    runs: u32,
) -> Result<Vec<u8>, RunFault>
    ensures ok { IfOk result (λ text. IsTallyText (label program.now) workers limit seed runs text.items) }
    ensures workers { result ≡ Err RunFault.Workers → (workers ≡ 0) ⊎ (64 < workers) }
    ensures start { result ≢ Err RunFault.Start }
{
    match tally(alloc, program, workers, limit, seed, runs) {
        Ok(rows) => ranked_text(alloc, rows),
        Err(fault) => Err(fault),
    }
}

fn ranked_text(alloc: Global, rows: Vec<Row>) -> Result<Vec<u8>, RunFault>
    ensures ok { IfOk result (λ text. (ranked : List model.Row) × IsRanked (rows_by rows.items) ranked × (text.items ≡ tally_text ranked)) }
    ensures err { IfErr result (λ why. why ≡ RunFault.Memory) }
{
    let mut rows = rows;
    let text = match rank(&mut rows) {
        Ok(()) => told(alloc, rows.as_slice()),
        Err(error) => Err(error),
    };
    drop(rows);
    match text {
        Ok(text) => Ok(text),
        Err(_) => Err(RunFault::Memory),
    }
}

// More runs come first, and of as many the smaller seed: the second sort keeps that order.
fn rank(rows: &mut Vec<Row>) -> Result<(), AllocError>
    ensures { OnOk result (IsRanked (rows_by rows.old.items) (rows_by rows.new.items)) }
{
    rows.sort_by_key(|row| row.first)?;
    rows.sort_by(|one, other| other.count.cmp(&one.count))?;
    Ok(())
}

// The rows of so many runs, in the order in which their outcomes came.
fn tally(
    alloc: Global,
    program: &Loaded,
    workers: u8,
    limit: u32,
    seed: u32,
    runs: u32,
) -> Result<Vec<Row>, RunFault>
    ensures ok { IfOk result (λ rows. rows_by rows.items ≡ tally seed (outcomes_from (label program.now) workers limit seed runs)) }
    ensures workers { result ≡ Err RunFault.Workers → (workers ≡ 0) ⊎ (64 < workers) }
    ensures start { result ≢ Err RunFault.Start }
{
    if workers == 1 && 0 < runs {
        return tally_alone(alloc, program, workers, limit, seed, runs);
    }
    tally_each(alloc, program, workers, limit, seed, runs)
}

// One worker has nothing to draw, so its runs are alike, and only the first is made.
fn tally_alone(
    alloc: Global,
    program: &Loaded,
    workers: u8,
    limit: u32,
    seed: u32,
    runs: u32,
) -> Result<Vec<Row>, RunFault>
    requires alone { workers ≡ 1 }
    requires some { 0 < runs }
    ensures ok { IfOk result (λ rows. rows_by rows.items ≡ tally seed (outcomes_from (label program.now) workers limit seed runs)) }
    ensures workers { result ≡ Err RunFault.Workers → (workers ≡ 0) ⊎ (64 < workers) }
    ensures start { result ≢ Err RunFault.Start }
{
    let first = u64::from(seed);
    match outcome_of(alloc, program, workers, limit, first) {
        Ok(outcome) => only_row(alloc, outcome, runs, first),
        Err(fault) => Err(fault),
    }
}

fn only_row(alloc: Global, outcome: Outcome, count: u32, first: u64) -> Result<Vec<Row>, RunFault>
    ensures ok { IfOk result (λ rows. rows_by rows.items ≡ record { outcome = outcome_by outcome; count = count; first = first } ∷ []) }
    ensures err { IfErr result (λ why. why ≡ RunFault.Memory) }
{
    let mut rows = Vec::new(alloc);
    match rows.push(Row {
        outcome,
        count,
        first,
    }) {
        Ok(()) => Ok(rows),
        Err(_) => {
            drop(rows);
            Err(RunFault::Memory)
        }
    }
}

// Each run is made.
fn tally_each(
    alloc: Global,
    program: &Loaded,
    workers: u8,
    limit: u32,
    seed: u32,
    runs: u32,
) -> Result<Vec<Row>, RunFault>
    ensures ok { IfOk result (λ rows. rows_by rows.items ≡ tally seed (outcomes_from (label program.now) workers limit seed runs)) }
    ensures workers { result ≡ Err RunFault.Workers → (workers ≡ 0) ⊎ (64 < workers) }
    ensures start { result ≢ Err RunFault.Start }
{
    let mut rows = Vec::new(alloc);
    for made in 0..runs {
        let at = u64::from(seed) + u64::from(made);
        match add_run(alloc, program, workers, limit, at, &mut rows) {
            Ok(()) => {}
            Err(fault) => {
                drop(rows);
                return Err(fault);
            }
        }
    }
    Ok(rows)
}

// One run more, by this seed.
fn add_run(
    alloc: Global,
    program: &Loaded,
    workers: u8,
    limit: u32,
    seed: u64,
    rows: &mut Vec<Row>,
) -> Result<(), RunFault>
    requires few { AreAtMost (2 ^ 32 - 2) (rows_by rows.old.items) }
    ensures ok { OnOk result
        (rows_by rows.new.items ≡ added (outcome_of (label program.now) workers limit seed) seed (rows_by rows.old.items)) }
    ensures workers { result ≡ Err RunFault.Workers → (workers ≡ 0) ⊎ (64 < workers) }
    ensures start { result ≢ Err RunFault.Start }
{
    let outcome = match outcome_of(alloc, program, workers, limit, seed) {
        Ok(outcome) => outcome,
        Err(fault) => return Err(fault),
    };
    match add(rows, outcome, seed) {
        Ok(()) => Ok(()),
        Err(_) => Err(RunFault::Memory),
    }
}

fn add(rows: &mut Vec<Row>, outcome: Outcome, seed: u64) -> Result<(), AllocError>
    requires few { AreAtMost (2 ^ 32 - 2) (rows_by rows.old.items) }
    ensures { OnOk result (rows_by rows.new.items ≡ added (outcome_by outcome) seed (rows_by rows.old.items)) }
{
    if count_same(rows.as_mut_slice(), &outcome) {
        drop(outcome);
        return Ok(());
    }
    match rows.push(Row {
        outcome,
        count: 1,
        first: seed,
    }) {
        Ok(()) => Ok(()),
        Err(_) => Err(AllocError),
    }
}

// Counts one run more in the row of this outcome, and tells whether there is one.
fn count_same(rows: &mut [Row], outcome: &Outcome) -> bool
    requires few { AreAtMost (2 ^ 32 - 2) (rows_by rows.old) }
    ensures rows { rows_by rows.new ≡ map (bumped (outcome_by outcome.now)) (rows_by rows.old) }
    ensures found { result ≡ has_row (outcome_by outcome.now) (rows_by rows.old) }
{
    let mut is_found = false;
    for i in 0..rows.len() {
        if rows[i].count_if_same(outcome) {
            is_found = true;
        }
    }
    is_found
}
