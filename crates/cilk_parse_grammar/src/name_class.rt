//! The names that the grammar tells apart from others, such as `main` and `printf`.

ghost use Rattle.std.specs.Prelude.{◌≡◌, Some};
ghost use Rattle.cilk_parse_grammar.specs.Classes.{name_class};
ghost use Rattle.cilk_parse_grammar.specs.NameClasses.{named_class};

/// What a name is to a rule: one with a meaning of its own, or another.
#[derive(Clone, Copy, PartialEq, Eq)]
pub enum NameClass {
    Main,
    Char,
    Printf,
    LockInit,
    Lock,
    Unlock,
    Other,
}

impl NameClass {
    /// That of a name with this text.
    pub fn of(text: &str) -> NameClass
        ensures { Some result ≡ named_class (name_class text.now) }
    {
        if text == "main" {
            NameClass::Main
        } else if text == "char" {
            NameClass::Char
        } else if text == "printf" {
            NameClass::Printf
        } else if text == "Cilk_lock_init" {
            NameClass::LockInit
        } else if text == "Cilk_lock" {
            NameClass::Lock
        } else if text == "Cilk_unlock" {
            NameClass::Unlock
        } else {
            NameClass::Other
        }
    }
}
