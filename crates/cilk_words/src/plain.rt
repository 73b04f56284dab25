//! What is wrong with the words of a command line, told in plain words.

use std::alloc::{AllocError, Global};

// The front of a line that advises to make a file's name of an option.
const ADVICE: &str = "  tip: to pass '";

const OPTIONS: &str =
    "  tip: an option stands behind its subcommand: --explain behind each, --limit, --log, --runs, --seed and --workers behind run";

const MORE_OPTIONS: &str =
    ", --limit, --logs and --workers behind explore, and --from, --text and --to behind draw";

// What stands before the reason why a word is not the number of an option, and what is told behind it in place of that reason.
const NUMBERS: &[(&str, &str)] = &[
    ("for '--workers <N>': ", "it is a number from 1 to 64"),
    ("for '--limit <K>': ", "it is a number from 1 to 10,000,000"),
    (
        "for '--seed <S>': ",
        "it is a number from 0 to 4,294,967,295",
    ),
    ("for '--runs <R>': ", "it is a number from 1 to 1,000,000"),
    ("for '--from <K>': ", "it is a number from 1 to 10,000,000"),
    ("for '--to <K>': ", "it is a number from 1 to 10,000,000"),
];

/// The text of an error, with plain words for what a number may be, and for where options stand.
pub(crate) fn plain(alloc: Global, text: &str) -> Result<String, AllocError> {
    let mut out = String::new(alloc);
    let mut is_first = true;
    for line in text.split('\n') {
        if !is_first {
            out.push_str("\n")?;
        }
        is_first = false;
        push_plain(&mut out, line)?;
    }
    Ok(out)
}

fn push_plain(out: &mut String, line: &str) -> Result<(), AllocError> {
    if line.starts_with(ADVICE) {
        return push_both(out, OPTIONS, MORE_OPTIONS);
    }
    for (front, told) in NUMBERS {
        if let Some((before, _)) = line.split_once(*front) {
            out.push_str(before)?;
            return push_both(out, front, told);
        }
    }
    out.push_str(line)
}

fn push_both(out: &mut String, first: &str, second: &str) -> Result<(), AllocError> {
    out.push_str(first)?;
    out.push_str(second)
}
