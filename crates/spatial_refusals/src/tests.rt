// What the tests share.
use sg_command::Words;
use sg_io::{MemorySink, MemorySource};
use std::alloc::Global;
use std::test::Fail;

/// A script of one transaction, and what it prints.
pub const FIRST: &[u8] =
    b"session 1\nbegin\ninsert 1 POINT (3 4)\nselect intersects POINT (3 4)\ncommit\n";

pub const FIRST_TEXT: &[u8] =
    b"commit 1 session 1 transaction 1\n  inserted\n  keys 1\nrows 1\n  1 POINT (3 4)\n";

pub const USAGE: &[u8] =
    b"usage: spatial_cli replay [--workers N] [--labels] | threads [--workers N] [--labels] [--trace] | make SEED ROWS SESSIONS\n";

/// The one word `replay`.
pub fn replay(alloc: Global) -> Result<Words, Fail> {
    let mut words = Words::new(alloc);
    words
        .push(Vec::from_slice(alloc, b"replay")?)
        .map_err(|_| "no memory for a word")?;
    Ok(words)
}

pub fn source(alloc: Global, text: &[u8]) -> Result<MemorySource, Fail> {
    Ok(MemorySource::new(Vec::from_slice(alloc, text)?, 100, Vec::new(alloc)))
}

pub fn sink(alloc: Global) -> Result<MemorySink, Fail> {
    Ok(MemorySink::new(alloc, 100, 65_536, Vec::new(alloc))?)
}
