// The calls that are not the shard server's as C has them, in libprobe.a, for the comparison and tests only: each is the function of the same name in `probe`.

#![tactic(auto)]

pub mod edits;
pub mod free;
pub mod metas;
pub mod search;
pub mod splits;
