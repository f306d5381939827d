// Nodes: the size of a lent block, and edits that read one lent block and write another.

#![tactic(auto)]

pub mod edit;
pub mod measure;
pub mod place;
pub mod result;

pub use edit::Removed;
pub use measure::Measure;
