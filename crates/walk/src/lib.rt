// The walk of a tree and the lookup in one, over pages as they are viewed: definitions in specs/ and theorems in proofs/, and no code.

#![tactic(auto)]
