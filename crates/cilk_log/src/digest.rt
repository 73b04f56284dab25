//! The digest by which a recorded schedule names its program, and the digits of it.

ghost use Rattle.std.specs.Prelude.{◌≡◌, codes};
ghost use Rattle.hex.specs.Hex.{encode_lower};
ghost use Rattle.cilk_log.specs.Naming.{digest_of};
ghost use Rattle.cilk_log.specs.Reading.{digest_in, program_in};

use hex::{FromHex, encode_to_slice};
use sha2::{Digest, Sha256};

/// The digest that names the program whose canonical text this is. It takes no memory.
pub fn program_of(text: &str) -> [u8; 32]
    ensures { result ≡ digest_of text.now }
{
    Sha256::digest(text.as_bytes())
}

/// The digest that a line tells.
pub(crate) fn program_in(line: &[u8]) -> Option<[u8; 32]>
    ensures { result ≡ program_in line.now }
{
    match line.strip_prefix(b"program ") {
        None => None,
        Some(digits) => digest_in(digits),
    }
}

// The digits of its bytes are these, in lower case.
fn digest_in(digits: &[u8]) -> Option<[u8; 32]>
    ensures { result ≡ digest_in digits.now }
{
    match <[u8; 32]>::from_hex(digits) {
        Err(_) => None,
        Ok(digest) => (digits_of(&digest).as_slice() == digits).then_some(digest),
    }
}

/// Two digits for each byte, in lower case.
pub(crate) fn digits_of(digest: &[u8; 32]) -> [u8; 64]
    ensures { result ≡ encode_lower digest.now }
{
    let mut digits = [0u8; 64];
    let _ = encode_to_slice(digest.as_slice(), &mut digits);
    digits
}
