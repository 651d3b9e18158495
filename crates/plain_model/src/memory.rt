//! Out of memory.
use std::alloc::AllocError;

/// Out of memory: the library's own error for a refused allocation.
pub type Memory = AllocError;
