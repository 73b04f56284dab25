//! What text literals say (C 1990, 6.1.4).

ghost use Rattle.std.specs.Prelude.{◌≡◌, ◌<◌, IfOk, drop, string_bytes, IsAscii};
ghost use Rattle.cilk_tree_syntax.specs.lexeme.Lexeme.{escaped, body_says};

use std::alloc::{AllocError, Global};

// What a backslash and this byte say (C 1990, 6.1.3.4).
fn escaped(byte: u8) -> u8
    ensures { result ≡ escaped byte }
{
    match byte {
        b'n' => b'\n',
        b't' => b'\t',
        _ => byte,
    }
}

/// What a literal with its quotes says.
pub(crate) fn said(alloc: Global, text: &str) -> Result<String, AllocError>
    requires { IsAscii text.now }
    ensures { IfOk result (λ s. string_bytes s ≡ body_says (drop 1 text.now)) }
{
    let mut said = String::new(alloc);
    let mut rest = match text.as_bytes() {
        [] => return Ok(said),
        [_, behind @ ..] => behind,
    };
    'each: while let Some((&byte, others)) = rest.split_first() {
        let Some((&next, behind)) = others.split_first() else {
            return Ok(said);
        };
        if byte == b'"' {
            return Ok(said);
        }
        if byte == b'\\' {
            said.push(escaped(next) as char)?;
            rest = behind;
        } else {
            said.push(byte as char)?;
            rest = others;
        }
    }
    Ok(said)
}
