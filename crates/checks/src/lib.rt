// 01's starred checks by example: the list in specs/ and its proof in proofs/, and no code.

#![tactic(auto)]
