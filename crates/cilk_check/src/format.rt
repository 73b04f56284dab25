//! How many numbers a format of `printf` asks for, where it is one.

ghost use Rattle.std.specs.Prelude.{◌≡◌};
ghost use Rattle.cilk_check_scopes.specs.Format.{numbers_in};

/// How many `%d` stand in a format, or nothing where a `%` stands before another character than `d` or `%`, or at the
/// end (C 1990, 7.9.6.1).

#[tactic(auto, using(crate::proofs::Formats::formats))]
pub(crate) fn numbers_in(format: &str) -> Option<usize>
    ensures { result ≡ numbers_in format.now }
{
    let mut numbers: usize = 0;
    let mut is_open = false;
    for byte in format.as_bytes() {
        if !is_open {
            is_open = *byte == b'%';
        } else if *byte == b'd' {
            numbers += 1;
            is_open = false;
        } else if *byte == b'%' {
            is_open = false;
        } else {
            return None;
        }
    }
    if is_open { None } else { Some(numbers) }
}
