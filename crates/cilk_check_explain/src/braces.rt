//! Braces that are not closed, and the margins by which it shows which of them was meant.

use crate::front::Front;
use crate::fronts::{Class, front_of};
use crate::lines::{behind_newline, split};
use crate::reason::Reason;
use crate::source::Source;
use cilk_check_scopes::Memory;
use cilk_lex::{Mark, TokenKind};
use std::alloc::Global;

/// A brace that opens, and the one that closes it, on a line that begins further to the left.
#[derive(Clone, Copy)]
struct Slanted {
    opens: usize,
    closes: usize,
}

// What stands on its line before a token.
fn line_front<'a>(source: &Source<'a>, index: usize) -> &'a str {
    let (before, _) = split(source.text, source.place_at(index));
    behind_newline(before)
}

/// The blanks with which the line of a token begins.
pub(crate) fn margin_of<'a>(source: &Source<'a>, index: usize) -> &'a str {
    front_of(line_front(source, index), Class::Blank)
}

// Whether a brace that closes begins a line with a narrower margin than the line of the brace that it closes.
fn is_slanted(source: &Source<'_>, opens: usize, closes: usize) -> bool {
    let before = line_front(source, closes);
    let narrow = front_of(before, Class::Blank);
    let wide = margin_of(source, opens);
    narrow.len() == before.len() && narrow.len() < wide.len() && wide.starts_with(narrow)
}

// The first pair of braces before a token that is slanted so.
fn first_slanted(alloc: Global, front: &Front<'_>) -> Result<Option<Slanted>, Memory> {
    let mut open = Vec::new(alloc);
    for (index, token) in front.source.tokens.iter().enumerate() {
        if index >= front.index {
            return Ok(None);
        }
        match token.kind {
            TokenKind::Mark(Mark::OpenBrace) => open.push(index)?,
            TokenKind::Mark(Mark::CloseBrace) => {
                if let Some(opens) = open.pop() {
                    if is_slanted(&front.source, opens, index) {
                        return Ok(Some(Slanted {
                            opens,
                            closes: index,
                        }));
                    }
                }
            }
            _ => {}
        }
    }
    Ok(None)
}

/// Says which brace is not closed before the token.
pub(crate) fn say_open_brace(
    alloc: Global,
    out: &mut String,
    front: &Front<'_>,
    brace: usize,
) -> Result<(), Memory> {
    let source = &front.source;
    let opened = source.line_of_token(brace);
    Reason::numbered("the `{` in line @ is never closed", opened).say(out)?;
    let Some(pair) = first_slanted(alloc, front)? else {
        return Ok(());
    };
    let closed = source.line_of_token(pair.closes);
    Reason::numbered(", since the `}` in line @", closed).say(out)?;
    let opened = source.line_of_token(pair.opens);
    Reason::numbered(" closes the one in line @", opened).say(out)
}
