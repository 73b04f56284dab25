//! Texts between the tags of an SVG, and in its attributes.

use cilk_log_replay::Memory;

/// Writes a text so that it stands for itself in XML. A character that XML has not is told by a question mark.
pub(crate) fn put_escaped(out: &mut String, text: &str) -> Result<(), Memory> {
    for letter in text.chars() {
        match letter {
            '<' => out.push_str("&lt;")?,
            '>' => out.push_str("&gt;")?,
            '&' => out.push_str("&amp;")?,
            '"' => out.push_str("&quot;")?,
            _ => out.push(if is_in_xml(letter) { letter } else { '?' })?,
        }
    }
    Ok(())
}

// Whether XML 1.0 has a character.
fn is_in_xml(letter: char) -> bool {
    match letter {
        '\t' | '\n' | '\r' => true,
        '\u{fffe}' | '\u{ffff}' => false,
        _ => ' ' <= letter,
    }
}
