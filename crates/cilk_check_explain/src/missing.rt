//! Marks that are missing: with them the text goes on.

use crate::braces::margin_of;
use crate::front::Front;
use crate::lines::split;
use crate::reason::Reason;
use crate::remarks::{Remark, Saying, Sort, Spot, Test};
use cilk_check_scopes::Memory;
use cilk_parse::{ReadFault, read};
use std::alloc::{AllocError, Global};

// Up to where a text is read: the place of its fault, or its length.
fn reach(alloc: Global, text: &str) -> Result<usize, Memory> {
    match read(alloc, text) {
        Ok(program) => {
            drop(program);
            Ok(text.len())
        }
        Err(ReadFault::Unexpected(at) | ReadFault::TooDeep(at)) => Ok(at as usize),
        Err(ReadFault::Lex(_)) => Ok(0),
        Err(ReadFault::Memory) => Err(Memory::from(AllocError)),
    }
}

// The text with a mark more at a place, between spaces.
fn with_mark(alloc: Global, text: &str, at: u32, mark: &str) -> Result<String, Memory> {
    let (before, behind) = split(text, at);
    let mut whole = String::new(alloc);
    Reason::joined("$ ", mark, before).say(&mut whole)?;
    Reason::named(" $", behind).say(&mut whole)?;
    Ok(whole)
}

// The place of the token behind this one, or of this one where it is the last.
fn wanted_reach(front: &Front<'_>) -> u32 {
    let tokens = front.source.tokens;
    match tokens.get(front.index.saturating_add(1)) {
        Some(token) => token.start,
        None => front.source.place_at(front.index),
    }
}

// Whether the text goes on through the token, and the one behind it, where this mark stands before it.
fn goes_on_with(alloc: Global, front: &Front<'_>, mark: &str) -> Result<bool, Memory> {
    let at = front.source.place_at(front.index);
    let mended = with_mark(alloc, front.source.text, at, mark)?;
    let reached = reach(alloc, mended.as_str())?;
    let wanted = (wanted_reach(front) as usize).saturating_add(mark.len());
    Ok(reached > wanted.saturating_add(2))
}

// Where no statement can end behind the token before.
const OPEN_ENDS: &[Remark] = &[
    Remark {
        saying: Saying::Plain(""),
        when: &[Test::Is(Spot::Before(1), &[""])],
        unless: &[],
    },
    Remark {
        saying: Saying::Plain(""),
        when: &[Test::Sorted(Spot::Before(1), Sort::Header)],
        unless: &[],
    },
    Remark {
        saying: Saying::Plain(""),
        when: &[Test::Sorted(Spot::Before(1), Sort::Mark)],
        unless: &[Test::Is(Spot::Before(1), &[")", "]", "++", "--"])],
    },
];

// The marks that may be missing before the token, the likeliest first.
fn marks(front: &Front<'_>) -> &'static [&'static str] {
    let opener = front.spelled(Spot::Opener(0));
    if opener == "[" {
        return &["]", "];"];
    }
    if opener == "(" {
        return &[")", ");", ","];
    }
    marks_outside(front)
}

// The same where no parenthesis and no bracket is open.
fn marks_outside(front: &Front<'_>) -> &'static [&'static str] {
    let is_in_body = front.source.open_brace(front.index).is_some();
    if is_in_body || front.spelled(Spot::Before(1)) != ")" {
        return &[";"];
    }
    if opens_body(front) {
        &["{", ";"]
    } else {
        &[";", "{"]
    }
}

// Whether the token stands on the line of a head, or on one of a wider margin.
fn opens_body(front: &Front<'_>) -> bool {
    let head = margin_of(&front.source, front.begin());
    !front.begins_line() || margin_of(&front.source, front.index).len() > head.len()
}

/// The mark that is missing before the token. None where none is known with which the text goes on.
pub(crate) fn missing(alloc: Global, front: &Front<'_>) -> Result<Option<&'static str>, Memory> {
    if front.remark_in(OPEN_ENDS).is_some() {
        return Ok(None);
    }
    for mark in marks(front) {
        if goes_on_with(alloc, front, mark)? {
            return Ok(Some(*mark));
        }
    }
    Ok(None)
}
