// The calls that are not the shard server's, as C functions over numbers and slices, for the comparison and tests only, which `probe_c` exports.

#![tactic(auto)]

pub mod edits;
pub mod free;
pub mod metas;
pub mod search;
pub mod splits;
