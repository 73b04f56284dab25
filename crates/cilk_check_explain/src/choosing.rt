//! Labels of a `switch`, and its body, that cannot stand where they do.

use crate::remarks::{Remark, Saying, Spot, Test};

const CHOICES: &[&str] = &["case", "default"];

const LABEL: &str =
    " cannot stand here, since labels stand directly in the block of a `switch` only, each before a statement";

const VALUE: &str =
    " cannot stand here, since a `case` has a number, with `-` before it or without, and then a `:`";

const UNLABELLED: &str =
    " cannot stand here, since a label stands before a statement, and `;` is the one that does nothing";

const BODY: &str = " cannot stand here, since the body of a `switch` is a block";

/// Why a label, or what stands in one or behind it, cannot stand here.
pub(crate) const LABELS: &[Remark] = &[
    Remark {
        saying: Saying::Plain(LABEL),
        when: &[
            Test::Is(Spot::Before(0), CHOICES),
            Test::Is(Spot::Before(1), &[";", "{", "}", ":", ")", "else", "do"]),
        ],
        unless: &[],
    },
    Remark {
        saying: Saying::Plain(UNLABELLED),
        when: &[
            Test::Is(Spot::Before(0), &["}"]),
            Test::Is(Spot::Before(1), &[":"]),
            Test::Is(Spot::Before(2), &["default", "case"]),
        ],
        unless: &[],
    },
    Remark {
        saying: Saying::Plain(UNLABELLED),
        when: &[
            Test::Is(Spot::Before(0), &["}"]),
            Test::Is(Spot::Before(1), &[":"]),
            Test::Is(Spot::Before(3), &["case"]),
        ],
        unless: &[],
    },
    Remark {
        saying: Saying::Plain(UNLABELLED),
        when: &[
            Test::Is(Spot::Before(0), &["}"]),
            Test::Is(Spot::Before(1), &[":"]),
            Test::Is(Spot::Before(3), &["-"]),
            Test::Is(Spot::Before(4), &["case"]),
        ],
        unless: &[],
    },
    Remark {
        saying: Saying::Plain(VALUE),
        when: &[Test::Is(Spot::Before(1), &["case"])],
        unless: &[Test::Is(Spot::Before(0), CHOICES)],
    },
    Remark {
        saying: Saying::Plain(VALUE),
        when: &[Test::Is(Spot::Before(2), &["case"])],
        unless: &[Test::Is(Spot::Before(0), CHOICES)],
    },
    Remark {
        saying: Saying::Plain(VALUE),
        when: &[
            Test::Is(Spot::Before(2), &["-"]),
            Test::Is(Spot::Before(3), &["case"]),
        ],
        unless: &[Test::Is(Spot::Before(0), CHOICES)],
    },
    Remark {
        saying: Saying::Plain(BODY),
        when: &[
            Test::Is(Spot::Before(1), &[")"]),
            Test::Is(Spot::Group(1), &["switch"]),
        ],
        unless: &[Test::Is(Spot::Before(0), CHOICES)],
    },
];
