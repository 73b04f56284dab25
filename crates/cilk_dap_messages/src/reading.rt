//! The bytes of a message, read as JSON.

use crate::fault::MessageFault;
use serde_json::Value;
use std::alloc::Global;

/// What the bytes of a message say: nothing where they are no JSON, which is no request either.
pub fn value_of(alloc: Global, bytes: &[u8]) -> Result<Value, MessageFault> {
    match Value::from_slice(alloc, bytes) {
        Ok(value) => Ok(value),
        Err(error) if error.is_memory() => Err(MessageFault::Memory),
        Err(_) => Ok(Value::Null),
    }
}
