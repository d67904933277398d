//! Random trees, as plans.
use std::alloc::{AllocError, Global};

/// A node of a tree whose nodes come after their parts: how many of the last terms are its parts, and the integer that it is
/// where it has none.
#[derive(Clone, Copy)]
pub(crate) struct Node {
    pub(crate) count: usize,
    pub(crate) value: i64,
}

/// The next number of a linear congruence, which is less than 2^31.
fn next(state: &mut u64) -> u32 {
    *state = state
        .wrapping_mul(6_364_136_223_846_793_005)
        .wrapping_add(1_442_695_040_888_963_407);
    (*state >> 33) as u32
}

/// A random tree of this number of nodes, of one to three parts each.
pub(crate) fn random_nodes(alloc: Global, size: u32) -> Result<Vec<Node>, AllocError> {
    let mut nodes = Vec::new(alloc);
    let mut open: Vec<u32> = Vec::new(alloc);
    open.push(size)?;
    let mut state: u64 = 42;
    for _ in 0..size {
        let Some(here) = open.pop() else {
            break;
        };
        let below = here.saturating_sub(1);
        let count = (1 + next(&mut state) % 3).min(below);
        let mut left = below;
        for k in 0..count {
            let after = count.saturating_sub(k).saturating_sub(1);
            let most = left.saturating_sub(after).max(1);
            let part = if after == 0 {
                most
            } else {
                1 + next(&mut state) % most
            };
            left = left.saturating_sub(part);
            open.push(part)?;
        }
        let value = (next(&mut state) % 16) as i64;
        nodes.push(Node {
            count: count as usize,
            value,
        })?;
    }
    nodes.reverse();
    Ok(nodes)
}
