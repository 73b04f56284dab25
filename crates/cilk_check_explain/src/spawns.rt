//! Spawns and calls that stand within something else, or have something else behind them.

use crate::front::Front;
use crate::remarks::{Remark, Saying, Sort, Spot, Test};
use crate::source::Source;
use crate::words::{ASSIGNING, TESTING};
use cilk_lex::{Keyword, TokenKind};

const SPAWN_IN_RETURN: &str =
    " cannot stand in a `return`: write `x = spawn f(..);`, `sync;` and then `return x;`";

const SPAWN_IN_DECLARATION: &str =
    " cannot stand in a declaration: write `int x;` at the head of the block, and `x = spawn f(..);` behind it";

const SPAWN_IN_TEST: &str =
    " cannot stand in a test: write `x = spawn f(..);` and `sync;` before, and test `x`";

const SPAWN_AGAIN: &str =
    " stands here a second time in one statement, but each `spawn` has a statement of its own: write `x = spawn f(..);` and \
    `y = spawn g(..);`, and then `sync;` before `x` and `y` are used";

const SPAWN_AMONG: &str =
    " cannot stand among arguments: write `x = spawn f(..);` and `sync;` before, and pass `x`";

const SPAWN_WITHIN: &str =
    " cannot stand within an expression: it begins a statement, `spawn f(..);`, is the whole right side of an assignment, \
    `x = spawn f(..);`, or the first argument of an inlet";

const BEHIND_TWO_SPAWNS: &str =
    " cannot stand behind a `spawn`: two of them stand in one expression, but each has a statement of its own: write \
    `x = spawn f(..);` and `y = spawn g(..);`, and then `sync;` before `x` and `y` are used";

const BEHIND_SPAWN: &str =
    " cannot stand behind a `spawn`, which is the whole right side of its assignment: write `x = spawn $(..);` and `sync;`, \
    and use `x` behind it";

const BEHIND_CALL: &str =
    " cannot stand behind a call, which is the whole right side of its assignment";

const CALL_IN_RETURN: &str = " makes a call, and none stands in a `return`";

const CALL_IN_DECLARATION: &str = " makes a call, and none stands in a declaration";

const CALL_IN_TEST: &str = " makes a call, and none stands in a test";

const CALL_AMONG: &str = " makes a call, and none stands among arguments";

const CALL_WITHIN: &str = " makes a call, and none stands within an expression";

const OF_FUNCTION: &str = ": write `x = $(..);` before, and use `x`";

const OF_FUNCTION_DECLARED: &str = ": write `int x;`, and the statement `x = $(..);`";

const OF_PROCEDURE: &str =
    "; `$` is a Cilk procedure, which is started by `spawn`: write `x = spawn $(..);` and `sync;` before, and use `x`";

const OF_PROCEDURE_DECLARED: &str =
    "; `$` is a Cilk procedure, which is started by `spawn`: write `int x;`, and the statement `x = spawn $(..);`";

const PRINTF: &str = " makes a call of `printf`, which is a statement of its own";

const NO_CALL: &str = " makes a call of `$`, which is no function: the whole statement is `$;`";

const SPAWN_OF_NOTHING: &str =
    " cannot stand behind `spawn`: the name of a procedure does, as in `spawn f(..);`";

/// Why no `spawn` can stand here.
pub(crate) const SPAWNS: &[Remark] = &[
    Remark {
        saying: Saying::Plain(SPAWN_AGAIN),
        when: &[Test::Has("spawn")],
        unless: &[],
    },
    Remark {
        saying: Saying::Plain(SPAWN_IN_RETURN),
        when: &[Test::Is(Spot::Begin(0), &["return"])],
        unless: &[],
    },
    Remark {
        saying: Saying::Plain(SPAWN_IN_DECLARATION),
        when: &[Test::Is(Spot::Begin(0), &["int"])],
        unless: &[],
    },
    Remark {
        saying: Saying::Plain(SPAWN_IN_TEST),
        when: &[Test::Is(Spot::Opener(1), TESTING)],
        unless: &[],
    },
    Remark {
        saying: Saying::Plain(SPAWN_AMONG),
        when: &[
            Test::Is(Spot::Opener(0), &["("]),
            Test::Sorted(Spot::Opener(1), Sort::Name),
        ],
        unless: &[],
    },
    Remark {
        saying: Saying::Plain(SPAWN_WITHIN),
        when: &[],
        unless: &[],
    },
];

/// Why no parenthesis can open here, behind a name or a word.
pub(crate) const CALLS: &[Remark] = &[
    Remark {
        saying: Saying::Plain(PRINTF),
        when: &[Test::Is(Spot::Before(1), &["printf"])],
        unless: &[],
    },
    Remark {
        saying: Saying::Call(CALL_IN_RETURN, Spot::Before(1)),
        when: &[
            Test::Sorted(Spot::Before(1), Sort::Name),
            Test::Is(Spot::Begin(0), &["return"]),
        ],
        unless: &[],
    },
    Remark {
        saying: Saying::Call(CALL_IN_DECLARATION, Spot::Before(1)),
        when: &[
            Test::Sorted(Spot::Before(1), Sort::Name),
            Test::Is(Spot::Begin(0), &["int"]),
        ],
        unless: &[],
    },
    Remark {
        saying: Saying::Call(CALL_IN_TEST, Spot::Before(1)),
        when: &[
            Test::Sorted(Spot::Before(1), Sort::Name),
            Test::Is(Spot::Opener(1), TESTING),
        ],
        unless: &[],
    },
    Remark {
        saying: Saying::Call(CALL_AMONG, Spot::Before(1)),
        when: &[
            Test::Sorted(Spot::Before(1), Sort::Name),
            Test::Is(Spot::Opener(0), &["("]),
            Test::Sorted(Spot::Opener(1), Sort::Name),
        ],
        unless: &[],
    },
    Remark {
        saying: Saying::Call(CALL_WITHIN, Spot::Before(1)),
        when: &[Test::Sorted(Spot::Before(1), Sort::Name)],
        unless: &[],
    },
    Remark {
        saying: Saying::Named(NO_CALL, Spot::Before(1)),
        when: &[Test::Is(Spot::Before(1), &["sync", "abort", "break", "continue"])],
        unless: &[],
    },
    Remark {
        saying: Saying::Plain(SPAWN_OF_NOTHING),
        when: &[Test::Is(Spot::Before(1), &["spawn"])],
        unless: &[],
    },
];

/// Why no mark can stand here, behind a whole call or spawn.
pub(crate) const BEHIND_CALLS: &[Remark] = &[
    Remark {
        saying: Saying::Plain(BEHIND_TWO_SPAWNS),
        when: &[
            Test::Is(Spot::Before(1), &[")"]),
            Test::Is(Spot::Group(2), &["spawn"]),
            Test::SpawnsBehind,
        ],
        unless: &[],
    },
    Remark {
        saying: Saying::Named(BEHIND_SPAWN, Spot::Group(1)),
        when: &[
            Test::Is(Spot::Before(1), &[")"]),
            Test::Is(Spot::Group(2), &["spawn"]),
        ],
        unless: &[],
    },
    Remark {
        saying: Saying::Call(BEHIND_CALL, Spot::Group(1)),
        when: &[
            Test::Is(Spot::Before(1), &[")"]),
            Test::Is(Spot::Group(2), ASSIGNING),
        ],
        unless: &[],
    },
];

// Whether the text has a Cilk procedure of this name, or a prototype of one.
fn is_procedure(source: &Source<'_>, name: &str) -> bool {
    for (index, token) in source.tokens.iter().enumerate() {
        if matches!(token.kind, TokenKind::Word(Keyword::Cilk))
            && source.word(index.saturating_add(2)) == name
        {
            return true;
        }
    }
    false
}

/// What is to be written in place of a call that stands within something else.
pub(crate) fn instead(front: &Front<'_>, callee: &str) -> &'static str {
    let is_declared = front.spelled(Spot::Begin(0)) == "int";
    match (is_procedure(&front.source, callee), is_declared) {
        (false, false) => OF_FUNCTION,
        (false, true) => OF_FUNCTION_DECLARED,
        (true, false) => OF_PROCEDURE,
        (true, true) => OF_PROCEDURE_DECLARED,
    }
}
