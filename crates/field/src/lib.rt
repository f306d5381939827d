// Numbers, runs of bytes, keys and marks: what every layer above reads and writes.

#![tactic(auto)]

pub mod marks;
pub mod number;
pub mod order;
pub mod refusal;
pub mod run;
pub mod sizes;

pub use order::Parting;
pub use refusal::Refusal;
