//! Want of memory, as an error that the crates above share.

use std::alloc::AllocError;
use thiserror::Error;

/// Memory has run out.
#[derive(Debug, Drop, Error)]
#[error("out of memory")]
pub struct Memory(#[from(alloc)] AllocError);
