//! The lexemes that are told apart by their bytes alone.

ghost use Rattle.std.specs.Prelude.{◌≡◌, ◌≢◌, ℕ, ◌≤◌, IsTrue, MatchOption, true, false};
ghost use Rattle.std.specs.List.{list_all};
ghost use Rattle.cilk_lex_tokens.specs.Byte.{continues_number};
ghost use Rattle.cilk_lex_tokens.specs.declared.keyword.Keyword.{Keyword};
ghost use Rattle.cilk_lex_tokens.specs.declared.mark.Mark.{Mark};
ghost use Rattle.cilk_lex_tokens.specs.declared.header.Header.{Header};
ghost use Rattle.cilk_lex_tokens.specs.Spelling.{spelling, mark_spelling, header_spelling, has_number_form};
ghost use Rattle.cilk_lex.specs.Sight.{valued, number_in};
ghost use Rattle.cilk_lex.specs.Marks.{is_byte};

use crate::bytes::is_x;
use cilk_lex_tokens::{Header, Keyword, Mark};

const INT_MAX: u32 = 2147483647;

pub(crate) fn keyword_of(word: &str) -> Option<Keyword>
    ensures { MatchOption result
        ((k : Keyword) → word.now ≢ spelling k) (λ k. word.now ≡ spelling k) }
{
    match word {
        "int" => Some(Keyword::Int),
        "void" => Some(Keyword::Void),
        "if" => Some(Keyword::If),
        "else" => Some(Keyword::Else),
        "while" => Some(Keyword::While),
        "do" => Some(Keyword::Do),
        "for" => Some(Keyword::For),
        "break" => Some(Keyword::Break),
        "continue" => Some(Keyword::Continue),
        "return" => Some(Keyword::Return),
        "cilk" => Some(Keyword::Cilk),
        "spawn" => Some(Keyword::Spawn),
        "sync" => Some(Keyword::Sync),
        "inlet" => Some(Keyword::Inlet),
        "abort" => Some(Keyword::Abort),
        "SYNCHED" => Some(Keyword::Synched),
        "Cilk_lockvar" => Some(Keyword::CilkLockvar),
        "switch" => Some(Keyword::Switch),
        "case" => Some(Keyword::Case),
        "default" => Some(Keyword::Default),
        _ => None,
    }
}

pub(crate) fn mark_of(text: &str) -> Option<Mark>
    ensures { MatchOption result
        ((m : Mark) → text.now ≢ mark_spelling m) (λ m. text.now ≡ mark_spelling m) }
{
    byte_mark(text).or(longer_mark(text))
}

// The mark of one byte that a text is.
fn byte_mark(text: &str) -> Option<Mark>
    ensures { MatchOption result
        ((m : Mark) → is_byte m ≡ true → text.now ≢ mark_spelling m) (λ m. text.now ≡ mark_spelling m) }
{
    match text {
        "(" => Some(Mark::OpenParenthesis),
        ")" => Some(Mark::CloseParenthesis),
        "{" => Some(Mark::OpenBrace),
        "}" => Some(Mark::CloseBrace),
        ";" => Some(Mark::Semicolon),
        "," => Some(Mark::Comma),
        "=" => Some(Mark::Assign),
        "+" => Some(Mark::Plus),
        "-" => Some(Mark::Minus),
        "*" => Some(Mark::Star),
        "[" => Some(Mark::OpenBracket),
        "]" => Some(Mark::CloseBracket),
        "?" => Some(Mark::Question),
        ":" => Some(Mark::Colon),
        "/" => Some(Mark::Slash),
        "%" => Some(Mark::Percent),
        "&" => Some(Mark::Ampersand),
        "|" => Some(Mark::Bar),
        "^" => Some(Mark::Caret),
        "~" => Some(Mark::Tilde),
        "!" => Some(Mark::Exclamation),
        "<" => Some(Mark::Less),
        ">" => Some(Mark::Greater),
        _ => None,
    }
}

// The mark of two or three bytes that a text is.
fn longer_mark(text: &str) -> Option<Mark>
    ensures { MatchOption result
        ((m : Mark) → is_byte m ≡ false → text.now ≢ mark_spelling m) (λ m. text.now ≡ mark_spelling m) }
{
    match text {
        "<<" => Some(Mark::ShiftLeft),
        ">>" => Some(Mark::ShiftRight),
        "<=" => Some(Mark::LessOrEqual),
        ">=" => Some(Mark::GreaterOrEqual),
        "==" => Some(Mark::Equal),
        "!=" => Some(Mark::NotEqual),
        "&&" => Some(Mark::And),
        "||" => Some(Mark::Or),
        "++" => Some(Mark::Increment),
        "--" => Some(Mark::Decrement),
        "+=" => Some(Mark::AddAssign),
        "-=" => Some(Mark::SubtractAssign),
        "*=" => Some(Mark::MultiplyAssign),
        "/=" => Some(Mark::DivideAssign),
        "%=" => Some(Mark::RemainderAssign),
        "<<=" => Some(Mark::ShiftLeftAssign),
        ">>=" => Some(Mark::ShiftRightAssign),
        "&=" => Some(Mark::BitAndAssign),
        "^=" => Some(Mark::BitXorAssign),
        "|=" => Some(Mark::BitOrAssign),
        _ => None,
    }
}

pub(crate) fn header_of(name: &[u8]) -> Option<Header>
    ensures { MatchOption result
        ((h : Header) → name.now ≢ header_spelling h) (λ h. name.now ≡ header_spelling h) }
{
    if name == b"cilk.h".as_slice() {
        return Some(Header::Cilk);
    }
    if name == b"cilk-lib.h".as_slice() {
        return Some(Header::CilkLib);
    }
    if name == b"cilk-lib.cilkh".as_slice() {
        return Some(Header::CilkLibCilkh);
    }
    if name == b"stdio.h".as_slice() {
        return Some(Header::Stdio);
    }
    if name == b"stdlib.h".as_slice() {
        return Some(Header::Stdlib);
    }
    None
}

// The value of these digits, where they are digits of the radix and the value is an int.
fn value_of(digits: &str, radix: u32) -> Option<u32>
    requires radix { (2 ≤ radix) × (radix ≤ 36) }
    requires no_sign { IsTrue (list_all continues_number digits.now) }
    ensures { result ≡ valued radix digits.now }
{
    let value = u32::from_str_radix(digits, radix).ok()?;
    (value <= INT_MAX).then_some(value)
}

/// The value of a number, where it is an integer constant (C 1990, 6.1.3.2).
pub(crate) fn number_of(text: &str) -> Option<u32>
    requires { IsTrue (has_number_form text.now) }
    ensures { result ≡ number_in text.now }
{
    let bytes = text.as_bytes();
    if bytes.len() < 2 || bytes[0] != b'0' {
        return value_of(text, 10);
    }
    if is_x(bytes[1]) {
        return value_of(&text[2..], 16);
    }
    value_of(&text[1..], 8)
}
