//! A hoard of memory.
//! Cited by scenarios.rt, worlds.rt.

use std::alloc::{AllocError, Global};

/// How many blocks the hoard may have of each size, at most.
pub(crate) const BLOCKS: usize = 200_000;

/// Takes all the memory that is left, in blocks that nothing touches. Their sizes are halved from 2^45 bytes down, so
/// that what no large block fits into is taken by smaller ones.
pub(crate) fn hoard_all(alloc: Global, hoard: &mut Vec<Vec<u8>>) -> Result<(), AllocError> {
    let mut size = 1usize << 45;
    for _ in 0..42usize {
        hoard_size(alloc, hoard, size)?;
        size /= 2;
    }
    Ok(())
}

fn hoard_size(alloc: Global, hoard: &mut Vec<Vec<u8>>, size: usize) -> Result<(), AllocError> {
    for _ in 0..BLOCKS {
        let Ok(block) = Vec::with_capacity(alloc, size) else {
            break;
        };
        hoard.push(block)?;
    }
    Ok(())
}
