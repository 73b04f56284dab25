//! What `printf` writes.

ghost use Rattle.std.specs.Prelude.{◌≡◌, ◌∷◌, ◌++◌, ℕ, List, IfOk};
ghost use Rattle.cilk_eval.specs.model.Printing as model;

use crate::Memory;
use crate::bytes::Bytes;
use itoa::Buffer;
use std::alloc::Global;

/// The format with each `%d` replaced by the next value in decimal, and each `%%` by `%` (C 1990,
/// 7.9.6.3).
pub(crate) fn printed(alloc: Global, format: &str, values: &[i32]) -> Result<Bytes, Memory>
    ensures { IfOk result (λ bytes. bytes ≡ model.printed format.now values.now) }
{
    let mut bytes = Vec::with_capacity(alloc, format.len())?;
    let mut left = values;
    let mut rest = format.as_bytes();
    while let Some((first, others)) = rest.split_first() {
        match others.split_first() {
            Some((second, behind)) if *first == b'%' => {
                left = put_percent(&mut bytes, *second, left)?;
                rest = behind;
            }
            Some(_) => {
                bytes.push(*first)?;
                rest = others;
            }
            None => {
                bytes.push(*first)?;
                rest = others;
            }
        }
    }
    Ok(Bytes::new(bytes))
}

// What stands for `%` and the byte behind it. Answers the values that are left.
fn put_percent<'a>(bytes: &mut Vec<u8>, second: u8, values: &'a [i32]) -> Result<&'a [i32], Memory>
    ensures { IfOk result (λ left. (format : List ℕ)
        → bytes.old.items ++ model.printed (37 ∷ second ∷ format) values.now ≡ bytes.new.items ++ model.printed format left.now) }
{
    match values.split_first() {
        None => {
            bytes.push(second)?;
            Ok(values)
        }
        Some((value, later)) => {
            if second == b'd' {
                let mut buffer = Buffer::new();
                bytes.extend_from_slice(buffer.format(*value).as_bytes())?;
                Ok(later)
            } else {
                bytes.push(second)?;
                Ok(values)
            }
        }
    }
}
