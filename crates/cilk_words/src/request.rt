//! The requests that words may make: a task, the name of a program, and whether what is wrong is explained.

/// What is to be done with one program.
#[derive(Clone, Copy)]
pub enum Task<'a> {
    /// To print its canonical text.
    Print,
    /// To say whether it may be run.
    Check,
    /// To run it with so many workers, for at most so many choices, and to write its log to the file of this name. With a seed the schedule is the one that
    /// it names; with so many runs they are those of this seed and the ones behind it, and a tally of them is told.
    Run {
        workers: u8,
        limit: u32,
        log: Option<&'a str>,
        seed: Option<u32>,
        runs: Option<u32>,
    },
    /// To tell each outcome to which so many workers can come, by a search that keeps at most so many standings, and to write a log of each to the
    /// folder of this name.
    Explore {
        workers: u8,
        limit: u32,
        logs: Option<&'a str>,
    },
    /// To make the choices of the log of this name again.
    Replay {
        log: &'a str,
    },
    /// To tell the numbers of the run of the log of this name, or, where none is named, of a run by one worker.
    Measure {
        log: Option<&'a str>,
    },
    /// To tell the races of the run of the log of this name, or, where none is named, of a run by one worker.
    Races {
        log: Option<&'a str>,
    },
    /// To draw the choices of the log of this name, from the one of a number up to that of another, as an SVG or in lines.
    Draw {
        log: &'a str,
        from: u32,
        to: u32,
        in_lines: bool,
    },
    /// To answer commands on the log of this name.
    Debug {
        log: &'a str,
    },
    /// To answer an editor, which names the texts.
    Serve,
}

/// A task, the name of the text of the program that it is for, empty where an editor names it, and whether more is to be said of what is
/// wrong: a fault in that program, a trap of it, or a choice that is not possible.
#[derive(Clone, Copy)]
pub struct Request<'a> {
    pub task: Task<'a>,
    pub name: &'a str,
    pub explain: bool,
}
