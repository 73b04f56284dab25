//! The reserved names: keywords of C that the language has not, and names that mean something in Cilk.

ghost use Rattle.std.specs.Prelude.{◌≡◌, map};
ghost use Rattle.cilk_check.specs.NameFinds.{is_one_of, is_reserved};

// The keywords of C that are no words of the language (C 1990, 6.1.1).
const KEYWORDS_OF_C: &[&str] = &[
    "auto", "char", "const", "double", "enum", "extern", "float", "goto", "long", "register",
    "short", "signed", "sizeof", "static", "struct", "typedef", "union", "unsigned", "volatile",
];

// The names with a meaning of their own in Cilk.
const LIBRARY_NAMES: &[&str] = &[
    "private",
    "shared",
    "Self",
    "Cilk_alloca",
    "Cilk_fence",
    "printf",
    "Cilk_lock_init",
    "Cilk_lock",
    "Cilk_unlock",
];

pub(crate) fn is_reserved(name: &str) -> bool
    ensures { result ≡ is_reserved name.now }
{
    is_one_of(KEYWORDS_OF_C, name) || is_one_of(LIBRARY_NAMES, name)
}

fn is_one_of(words: &[&str], name: &str) -> bool
    ensures { result ≡ is_one_of (map (λ word. word.now) words.now) name.now }
{
    for word in words {
        if *word == name {
            return true;
        }
    }
    false
}
