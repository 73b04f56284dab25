//! The texts of recorded schedules.

mod texts;
