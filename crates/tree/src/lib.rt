// The judge and the lookup of one tree: what a sound image is, what is promised of one, and the theorems; no code.

#![tactic(auto)]
