// What `simplify` is, by definition, and what it promises: specs/ has the definitions, proofs/ the theorems.
#![tactic(auto)]
