//! Texts that spell no program, since none goes on with a token of them: P2.

use crate::braces::say_open_brace;
use crate::choosing::LABELS;
use crate::declarations::{BODIES, BRACKETS, DECLARING_WORDS, LENGTHS, MAINS, NAMES, NO_NAMES};
use crate::front::Front;
use crate::left_out::{left_out_word, say_left_out};
use crate::missing::missing;
use crate::operators::{COMMENTS, OPERATORS};
use crate::reason::Reason;
use crate::remarks::{Remark, Saying, Spot, Test};
use crate::say::say;
use crate::source::Source;
use crate::spawns::{BEHIND_CALLS, CALLS, SPAWNS, instead};
use crate::statements::{ENDS, OPERANDS, STATEMENT_WORDS, TEXT_REMARKS};
use cilk_check_scopes::Memory;
use cilk_lex::{Keyword, Mark, TokenKind};
use std::alloc::Global;

const OTHER: &str = " is found here, but no program goes on with it";

const NESTED: &str =
    " cannot stand here, since no function stands within another, and the body that begins in line @ is open";

const OTHER_END: &str = "The text ends too early: no program ends here";

// Where a function or a procedure begins within a body.
const FUNCTIONS: &[Remark] = &[
    Remark {
        saying: Saying::Plain(""),
        when: &[Test::Is(Spot::Before(0), &["cilk"])],
        unless: &[],
    },
    Remark {
        saying: Saying::Plain(""),
        when: &[
            Test::Is(Spot::Before(0), &["void", "int"]),
            Test::Is(Spot::Behind(2), &["("]),
        ],
        unless: &[],
    },
    Remark {
        saying: Saying::Plain(""),
        when: &[Test::Is(Spot::Before(0), &["("]), Test::BeginsFunction],
        unless: &[],
    },
];

// Where a word that is left out is not what is wrong: behind the head of a `main` that is told of the command line, and in a comment.
const SPARED: &[Remark] = &[
    Remark {
        saying: Saying::Plain(""),
        when: &[
            Test::Is(Spot::Begin(0), &["cilk"]),
            Test::Is(Spot::Begin(2), &["main"]),
        ],
        unless: &[Test::Is(Spot::Opener(0), &["(", "["])],
    },
    Remark {
        saying: Saying::Plain(""),
        when: &[
            Test::Is(Spot::Before(0), &["/"]),
            Test::Is(Spot::Before(1), &["/"]),
        ],
        unless: &[],
    },
    Remark {
        saying: Saying::Plain(""),
        when: &[
            Test::Is(Spot::Before(0), &["/"]),
            Test::Is(Spot::Behind(1), &["/"]),
        ],
        unless: &[],
    },
];

/// P2.
pub(crate) fn say_unexpected(
    alloc: Global,
    out: &mut String,
    source: Source<'_>,
    at: u32,
) -> Result<(), Memory> {
    let front = Front {
        source,
        index: source.index_of(at),
    };
    if let Some(remark) = front.remark_in(MAINS) {
        return say_remark(out, &front, remark);
    }
    match left_out_word(&source, at) {
        Some(word) if front.remark_in(SPARED).is_none() => say_left_out(out, word),
        _ => match front.kind() {
            Some(_) => say_token(alloc, out, &front),
            None => say_end(alloc, out, &front),
        },
    }
}

fn say_remark(out: &mut String, front: &Front<'_>, remark: &Remark) -> Result<(), Memory> {
    Reason::named("`$`", front.word()).say(out)?;
    let reason = match remark.saying {
        Saying::Plain(words) => Reason::numbered(words, front.line_before()),
        Saying::Named(words, spot) => Reason::named(words, front.spelled(spot)),
        Saying::Call(words, spot) => {
            let callee = front.spelled(spot);
            Reason::joined(words, instead(front, callee), callee)
        }
    };
    reason.say(out)
}

// A token that begins a line more likely lacks what should end the line above.
fn say_token(alloc: Global, out: &mut String, front: &Front<'_>) -> Result<(), Memory> {
    let is_early = front.begins_line();
    if is_early && say_missing(alloc, out, front)? {
        return Ok(());
    }
    if let Some(remark) = remark_of(front) {
        return say_remark(out, front, remark);
    }
    if !is_early && say_missing(alloc, out, front)? {
        return Ok(());
    }
    say_other(alloc, out, front)
}

// Whether a mark is missing before the token: this is said then.
fn say_missing(alloc: Global, out: &mut String, front: &Front<'_>) -> Result<bool, Memory> {
    let Some(mark) = missing(alloc, front)? else {
        return Ok(false);
    };
    let found = match front.kind() {
        Some(_) => "`$` cannot follow here: a ",
        None => "The text ends too early: a ",
    };
    Reason::named(found, front.word()).say(out)?;
    Reason::named("`$` is missing behind ", mark).say(out)?;
    Reason {
        words: "`$` in line @",
        more: "",
        name: front.spelled(Spot::Before(1)),
        number: front.line_before(),
    }
    .say(out)?;
    Ok(true)
}

// The remark by which the token cannot stand here. None where nothing more is known.
fn remark_of(front: &Front<'_>) -> Option<&'static Remark> {
    let sooner = front.remark_in(LENGTHS).or(front.remark_in(LABELS));
    if sooner.is_some() {
        return sooner;
    }
    match front.kind()? {
        TokenKind::Word(Keyword::Spawn) => front.remark_in(SPAWNS),
        TokenKind::Word(_) => front
            .remark_in(DECLARING_WORDS)
            .or(front.remark_in(STATEMENT_WORDS))
            .or(front.remark_in(NO_NAMES)),
        TokenKind::Mark(mark) => of_mark(front, mark),
        TokenKind::Name => front.remark_in(NAMES).or(front.remark_in(OPERANDS)),
        TokenKind::Number(_) => front.remark_in(OPERANDS),
        TokenKind::Text | TokenKind::Include(_) => front.remark_in(TEXT_REMARKS),
    }
}

fn of_mark(front: &Front<'_>, mark: Mark) -> Option<&'static Remark> {
    match mark {
        Mark::OpenParenthesis if front.begins_function() => None,
        Mark::OpenParenthesis => front.remark_in(CALLS),
        Mark::OpenBracket => front.remark_in(BRACKETS),
        Mark::OpenBrace => front.remark_in(BODIES),
        Mark::CloseParenthesis | Mark::CloseBracket | Mark::CloseBrace | Mark::Semicolon => {
            front.remark_in(ENDS)
        }
        _ => front
            .remark_in(COMMENTS)
            .or(front.remark_in(OPERATORS))
            .or(front.remark_in(BEHIND_CALLS)),
    }
}

fn say_other(alloc: Global, out: &mut String, front: &Front<'_>) -> Result<(), Memory> {
    Reason::named("`$`", front.word()).say(out)?;
    match front.source.open_brace(front.index) {
        Some(brace) if front.remark_in(FUNCTIONS).is_some() => say_nested(alloc, out, front, brace),
        _ => say(out, OTHER),
    }
}

// What is said of a function in a body: a brace of the text may lack its fellow.
fn say_nested(
    alloc: Global,
    out: &mut String,
    front: &Front<'_>,
    brace: usize,
) -> Result<(), Memory> {
    if front.source.open_brace(front.source.tokens.len()).is_none() {
        return Reason::numbered(NESTED, front.source.line_of_token(brace)).say(out);
    }
    say(out, " cannot stand in a body: ")?;
    say_open_brace(alloc, out, front, brace)
}

fn say_end(alloc: Global, out: &mut String, front: &Front<'_>) -> Result<(), Memory> {
    if say_missing(alloc, out, front)? {
        return Ok(());
    }
    match front.source.open_brace(front.index) {
        Some(brace) => {
            say(out, "The text ends too early: ")?;
            say_open_brace(alloc, out, front, brace)
        }
        None => say(out, OTHER_END),
    }
}
