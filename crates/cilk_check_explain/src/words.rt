//! Lists of words, and tables of what is told of each.

/// The marks that assign (C 1990, 6.3.16).
pub(crate) const ASSIGNING: &[&str] = &[
    "=", "+=", "-=", "*=", "/=", "%=", "<<=", ">>=", "&=", "^=", "|=",
];

/// The words that begin a statement with a test.
pub(crate) const TESTING: &[&str] = &["if", "while", "for", "switch"];

/// Whether a word is one of these.
pub(crate) fn is_one_of(words: &[&str], word: &str) -> bool {
    for each in words {
        if *each == word {
            return true;
        }
    }
    false
}

/// What the first row of a word tells. None of a word without a row.
pub(crate) fn told_in<'a>(rows: &[(&'a str, &'a str)], word: &str) -> Option<&'a str> {
    for (each, told) in rows {
        if *each == word {
            return Some(*told);
        }
    }
    None
}
