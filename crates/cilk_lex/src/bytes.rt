//! The classes of bytes, and how far a text goes on with one of them.

ghost use Rattle.std.specs.Prelude.{◌≡◌, take, drop};
ghost use Rattle.std.specs.List.{prefix_len};
ghost use Rattle.cilk_lex_tokens.specs.Byte.{is_blank, is_space, is_line_blank, is_line_end, is_printed, is_escape};
ghost use Rattle.cilk_lex_tokens.specs.Byte.{is_x, begins_name, continues_name, continues_number, continues_header, opens_header};
ghost use Rattle.cilk_lex.specs.Sight.{ends_line};

pub(crate) fn is_blank(byte: u8) -> bool
    ensures { result ≡ is_blank byte }
{
    byte == b' ' || (9..=13).contains(&byte)
}

pub(crate) fn is_space(byte: u8) -> bool
    ensures { result ≡ is_space byte }
{
    byte == b' ' || byte == b'\t'
}

fn is_line_blank(byte: u8) -> bool
    ensures { result ≡ is_line_blank byte }
{
    is_space(byte) || (11..=13).contains(&byte)
}

fn is_line_end(byte: u8) -> bool
    ensures { result ≡ is_line_end byte }
{
    is_space(byte) || byte == b'\r'
}

pub(crate) fn begins_name(byte: u8) -> bool
    ensures { result ≡ begins_name byte }
{
    byte.is_ascii_alphabetic() || byte == b'_'
}

fn continues_name(byte: u8) -> bool
    ensures { result ≡ continues_name byte }
{
    begins_name(byte) || byte.is_ascii_digit()
}

fn continues_number(byte: u8) -> bool
    ensures { result ≡ continues_number byte }
{
    continues_name(byte) || byte == b'.'
}

fn continues_header(byte: u8) -> bool
    ensures { result ≡ continues_header byte }
{
    byte.is_ascii_alphabetic() || byte == b'-' || byte == b'.'
}

/// The byte between the 0 and the digits of a hexadecimal number.
pub(crate) fn is_x(byte: u8) -> bool
    ensures { result ≡ is_x byte }
{
    byte == b'x' || byte == b'X'
}

/// Whether a header's name stands behind this byte.
pub(crate) fn opens_header(byte: u8) -> bool
    ensures { result ≡ opens_header byte }
{
    byte == b'<' || byte == b'"'
}

pub(crate) fn is_printed(byte: u8) -> bool
    ensures { result ≡ is_printed byte }
{
    (32..=126).contains(&byte)
}

pub(crate) fn is_escape(byte: u8) -> bool
    ensures { result ≡ is_escape byte }
{
    byte == b'n' || byte == b't' || byte == b'\\' || byte == b'"'
}

pub(crate) fn name_end(text: &[u8]) -> usize
    ensures { result ≡ prefix_len continues_name text.now }
{
    text.iter()
        .take_while(|byte| continues_name(**byte))
        .count()
}

pub(crate) fn number_end(text: &[u8]) -> usize
    ensures { result ≡ prefix_len continues_number text.now }
{
    text.iter()
        .take_while(|byte| continues_number(**byte))
        .count()
}

fn blank_end(text: &[u8]) -> usize
    ensures { result ≡ prefix_len is_line_blank text.now }
{
    text.iter().take_while(|byte| is_line_blank(**byte)).count()
}

fn header_end(text: &[u8]) -> usize
    ensures { result ≡ prefix_len continues_header text.now }
{
    text.iter()
        .take_while(|byte| continues_header(**byte))
        .count()
}

/// The name at the front of a text, and what stands behind it.
pub(crate) fn split_name(text: &[u8]) -> (&[u8], &[u8])
    ensures name { result.0.now ≡ take (prefix_len continues_name text.now) text.now }
    ensures behind { result.1.now ≡ drop (prefix_len continues_name text.now) text.now }
{
    text.split_at(name_end(text))
}

/// The blanks at the front of a line, and what stands behind them.
pub(crate) fn split_blanks(text: &[u8]) -> (&[u8], &[u8])
    ensures blanks { result.0.now ≡ take (prefix_len is_line_blank text.now) text.now }
    ensures behind { result.1.now ≡ drop (prefix_len is_line_blank text.now) text.now }
{
    text.split_at(blank_end(text))
}

/// The bytes at the front of a text of which headers' names are made, and what stands behind them.
pub(crate) fn split_header(text: &[u8]) -> (&[u8], &[u8])
    ensures name { result.0.now ≡ take (prefix_len continues_header text.now) text.now }
    ensures behind { result.1.now ≡ drop (prefix_len continues_header text.now) text.now }
{
    text.split_at(header_end(text))
}

/// Whether nothing but spaces, tabs and carriage returns stand up to the end of the line.
pub(crate) fn ends_line(text: &[u8]) -> bool
    ensures { result ≡ ends_line text.now }
{
    for byte in text {
        if *byte == b'\n' {
            return true;
        }
        if !is_line_end(*byte) {
            return false;
        }
    }
    true
}
