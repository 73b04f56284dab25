//! Copies of records, of which images of trees are made.

ghost use Rattle.std.specs.Prelude.{◌≡◌, IfOk};
ghost use Rattle.cilk_spawn.specs.Copied.{Copied, SameLife, SameLive};
ghost use Rattle.cilk_spawn.specs.LivingRecords.{cut_life, cut_record};

use super::Record;
use crate::delivery::Delivery;
use crate::life::{Life, Live};
use cilk_frame::{Frame, Memory};
use std::alloc::Global;
use std::collections::VecDeque;

impl Record {
    /// One that keeps the same.
    pub fn copy(&self, alloc: Global) -> Result<Record, Memory>
        ensures { IfOk result (λ r. Copied self.now r) }
    {
        Ok(Record {
            parent: self.parent,
            ordinal: self.ordinal,
            procedure: self.procedure,
            children: self.children,
            aborted: self.aborted,
            life: life_copy(alloc, &self.life)?,
        })
    }

    /// What was kept behind a choice, if it had ended then. Of one that lived then this tells nothing.
    pub fn cut(&self, choice: u64) -> Record
        ensures { result ≡ cut_record choice self.now }
    {
        Record {
            parent: self.parent,
            ordinal: self.ordinal,
            procedure: self.procedure,
            children: self.children,
            aborted: self.aborted,
            life: life_before(choice, &self.life),
        }
    }
}

fn life_before(choice: u64, life: &Life) -> Life
    ensures { result ≡ cut_life choice life.now }
{
    match life {
        Life::Live(_) => Life::Returned,
        Life::Returned => Life::Returned,
        Life::Delivered(taken) if choice < *taken => Life::Returned,
        Life::Delivered(taken) => Life::Delivered(*taken),
        Life::Aborted(ended) => Life::Aborted(*ended),
    }
}

fn life_copy(alloc: Global, life: &Life) -> Result<Life, Memory>
    ensures { IfOk result (λ l. SameLife life.now l) }
{
    match life {
        Life::Live(live) => Ok(Life::Live(Box::new(alloc, live_copy(alloc, live)?)?)),
        Life::Returned => Ok(Life::Returned),
        Life::Delivered(choice) => Ok(Life::Delivered(*choice)),
        Life::Aborted(choice) => Ok(Life::Aborted(*choice)),
    }
}

fn live_copy(alloc: Global, live: &Live) -> Result<Live, Memory>
    ensures { IfOk result (λ l. SameLive live.now l) }
{
    let living = live.living.clone()?;
    let receiver = live.receiver.copy()?;
    let waiting = waiting_copy(alloc, &live.waiting)?;
    let parked = parked_copy(&live.parked)?;
    Ok(Live {
        living,
        receiver,
        waiting,
        parked,
        place: live.place,
    })
}

fn waiting_copy(alloc: Global, waiting: &VecDeque<Delivery>) -> Result<VecDeque<Delivery>, Memory>
    ensures { IfOk result (λ made. made.items ≡ waiting.now.items) }
{
    let mut made = VecDeque::new(alloc);
    for i in 0..waiting.len() {
        made.push_back(waiting[i].copy()?)?;
    }
    Ok(made)
}

fn parked_copy(parked: &Option<Frame>) -> Result<Option<Frame>, Memory>
    ensures { IfOk result (λ frame. frame ≡ parked.now) }
{
    match parked {
        None => Ok(None),
        Some(frame) => Ok(Some(frame.image()?.into_frame())),
    }
}
