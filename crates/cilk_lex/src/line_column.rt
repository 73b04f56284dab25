//! From a place in a text to its line and its column.

ghost use Rattle.std.specs.Prelude.{◌≡◌, ◌<◌, ◌-◌, ◌^◌, min, length, take};
ghost use Rattle.cilk_lex_tokens.specs.LineColumn.{line_in, column_in};

/// The line and the column of a place in a text, in bytes from its beginning. Both count from 1. Behind the text's end
/// they are those of its end.
pub fn line_col(text: &str, at: u32) -> (u32, u32)
    requires fits { min at (length text.now) < 2 ^ 32 - 1 }
    ensures line { result.0 ≡ line_in text.now at }
    ensures column { result.1 ≡ column_in text.now at }
{
    let mut line = 1;
    let mut column = 1;
    for byte in before(text.as_bytes(), at as usize) {
        if *byte == b'\n' {
            line += 1;
            column = 1;
        } else {
            column += 1;
        }
    }
    (line, column)
}

// As many bytes from the beginning, or all where there are fewer.
fn before(bytes: &[u8], count: usize) -> &[u8]
    ensures { result.now ≡ take count bytes.now }
{
    if count >= bytes.len() {
        return bytes;
    }
    &bytes[..count]
}
