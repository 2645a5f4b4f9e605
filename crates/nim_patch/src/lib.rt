//! What a template needs to have where, and the patches that bring it there: which preconditions fail, the copies that
//! make them hold, and a cache of patches.
#![tactic(auto)]

mod cache;
mod kept;
mod patch;

pub use cache::PatchCache;
pub use patch::{Patch, PatchCopy, build_patch, failing};
