// Pages: where the numbers of a block stand, the rules that a sound block keeps, and the search in one.

#![tactic(auto)]

mod branch_pass;
pub mod breach;
pub mod layout;
mod leaf_pass;
pub mod rules;
pub mod search;

pub use breach::Breach;
pub use search::{Leaf, Place};
