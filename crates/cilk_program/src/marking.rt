//! The marks of a picture: which of its choices race.

use cilk_draw::{Excerpt, Picture};
use cilk_races::{Loaded, Log, Memory, RacingChoices, racing_behind};
use std::alloc::{AllocError, Global};

// Behind how many choices a picture may end whose races are looked for. Most runs of so many have fewer accesses than are kept.
const MOST: usize = 1 << 16;

/// Marks the races among the choices of a part of the schedule, all of which can be made: by the races of the whole schedule up to the last of them.
pub(crate) fn mark_races(
    alloc: Global,
    program: Loaded,
    log: &Log,
    excerpt: Excerpt,
    picture: &mut Picture,
) -> Result<(), Memory> {
    let choices = log.choices.as_slice();
    let begin = excerpt.begin(choices.len());
    let end = excerpt.end(choices.len());
    if MOST < end {
        drop(program);
        picture.leave_races_out();
        return Ok(());
    }
    match racing_behind(alloc, program, log.workers, &choices[..end], begin) {
        // All choices were made before, so only memory may be wanting.
        Err(_) => Err(Memory::from(AllocError)),
        Ok(races) => mark_all(alloc, races.as_slice(), picture),
    }
}

fn mark_all(alloc: Global, races: &[RacingChoices], picture: &mut Picture) -> Result<(), Memory> {
    for race in races {
        picture.mark_race(alloc, race.first, race.second, race.variable.as_str())?;
    }
    Ok(())
}
