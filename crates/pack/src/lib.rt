// The packed writer: a block made of ranges of a source block's entries and a new one.

#![tactic(auto)]

pub mod edit;
pub mod element;
pub mod write;

pub use write::Plan;
