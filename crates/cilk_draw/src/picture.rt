//! What is drawn of a recorded schedule.

use crate::column::Column;
use crate::footer::Footer;
use crate::race::Race;
use crate::ribbon::Ribbon;
use cilk_log_replay::Memory;
use std::alloc::Global;

/// A part of a recorded schedule, and how the program stands behind it.
pub struct Picture {
    pub workers: u8,
    /// How many choices the schedule has.
    pub choices: usize,
    /// Behind how many choices the picture begins.
    pub begin: usize,
    pub columns: Vec<Column>,
    /// What each worker has in its hand, from worker 1 on: the path of an instance.
    pub hands: Vec<Ribbon>,
    /// The variables and the locks of the top level.
    pub globals: Vec<Ribbon>,
    pub races: Vec<Race>,
    /// Whether the races are all that there are. Else they were not looked for.
    pub knows_races: bool,
    pub footer: Footer,
}

impl Drop for Picture {
    fn drop(self) {
        let Picture {
            workers: _,
            choices: _,
            begin: _,
            columns: _columns,
            hands: _hands,
            globals: _globals,
            races: _races,
            knows_races: _,
            footer: _footer,
        } = self;
    }
}

impl Picture {
    /// Two of its choices race on a variable, and are marked.
    pub fn mark_race(
        &mut self,
        alloc: Global,
        first: u64,
        second: u64,
        variable: &str,
    ) -> Result<(), Memory> {
        let variable = String::from_str(alloc, variable)?;
        self.races.push(Race {
            first,
            second,
            variable,
        })?;
        Ok(())
    }

    /// Races are not looked for, and the picture says so.
    pub fn leave_races_out(&mut self) {
        self.knows_races = false;
    }

    /// Whether a choice of a column races with another of the picture.
    pub(crate) fn is_racing(&self, column: &Column) -> bool {
        self.races.as_slice().iter().any(|race| race.is_in(column))
    }

    /// Whether an action on a line of the text does.
    pub(crate) fn has_race_on(&self, line: u32) -> bool {
        for column in self.columns.as_slice() {
            if column.line == line && self.is_racing(column) {
                return true;
            }
        }
        false
    }

    /// The column of the choice of a number, and its place among the others.
    pub(crate) fn column_of(&self, choice: u64) -> Option<(usize, &Column)> {
        let mut place = 0_usize;
        for column in self.columns.as_slice() {
            if column.has(choice) {
                return Some((place, column));
            }
            place = place.saturating_add(1);
        }
        None
    }
}
