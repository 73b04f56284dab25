//! How the numbers of a run are told: a line of its work, one of its instances, one of the frames that were moved, and one for each worker.

ghost use Rattle.std.specs.Prelude.{◌≡◌, IfOk};
ghost use Rattle.cilk_log_replay.specs.machine.syntax.Appends.{Appends};
ghost use Rattle.cilk_races.specs.Text.{instances_line, measure_text, moves_line, share_line, share_lines, tenths, tenths_text, work_line};
ghost use Rattle.cilk_races.specs.Words.{numbers_of};

use crate::measure::Measure;
use cilk_log_replay::Memory;
use std::alloc::AllocError;

/// Writes the numbers of a run.
pub fn put_measure(out: &mut String, measure: &Measure) -> Result<(), Memory>
    ensures { Appends result out.old out.new (measure_text (numbers_of measure.now)) }
{
    put_work(out, measure)?;
    put_instances(out, measure)?;
    put_moves(out, measure)?;
    put_shares(out, measure.shares.as_slice())
}

fn put_work(out: &mut String, measure: &Measure) -> Result<(), Memory>
    ensures { Appends result out.old out.new (work_line (numbers_of measure.now)) }
{
    let Measure { work, span, .. } = measure;
    write!(out, "work {work} span {span} parallelism ")?;
    put_parallelism(out, *work, *span)?;
    out.push_str("\n")?;
    Ok(())
}

// Work over span, with one decimal.
fn put_parallelism(out: &mut String, work: u64, span: u64) -> Result<(), Memory>
    ensures { Appends result out.old out.new (tenths_text (tenths work span)) }
{
    let tenths = tenths_of(work, span)?;
    let whole = tenths / 10;
    let tenth = tenths % 10;
    write!(out, "{whole}.{tenth}")?;
    Ok(())
}

// No memory holds the choices of so much work that ten times as much is too large.
fn tenths_of(work: u64, span: u64) -> Result<u64, Memory>
    ensures { IfOk result (λ n. n ≡ tenths work span) }
{
    if span == 0 {
        return Ok(0);
    }
    match work.checked_mul(10) {
        None => Err(Memory::from(AllocError)),
        Some(tenfold) => Ok(tenfold / span),
    }
}

fn put_instances(out: &mut String, measure: &Measure) -> Result<(), Memory>
    ensures { Appends result out.old out.new (instances_line (numbers_of measure.now)) }
{
    let Measure {
        instances,
        live,
        depth,
        bodies,
        deque,
        ..
    } = measure;
    write!(out, "instances {instances} live {live} depth {depth}")?;
    write!(out, " bodies {bodies} deque {deque}\n")?;
    Ok(())
}

fn put_moves(out: &mut String, measure: &Measure) -> Result<(), Memory>
    ensures { Appends result out.old out.new (moves_line (numbers_of measure.now)) }
{
    let Measure {
        steals,
        pops,
        parks,
        ..
    } = measure;
    write!(out, "steals {steals} pops {pops} parks {parks}\n")?;
    Ok(())
}

fn put_shares(out: &mut String, shares: &[u64]) -> Result<(), Memory>
    ensures { Appends result out.old out.new (share_lines 1 shares.now) }
{
    for i in 0..shares.len() {
        put_share(out, i + 1, shares[i])?;
    }
    Ok(())
}

fn put_share(out: &mut String, worker: usize, share: u64) -> Result<(), Memory>
    ensures { Appends result out.old out.new (share_line worker share) }
{
    write!(out, "worker {worker} steps {share}\n")?;
    Ok(())
}
