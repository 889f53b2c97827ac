// The worked types of document 01 and names of 02, evaluated by the definitions: specs/Worked.antt has the lists,
// proofs/Evaluated.antt their theorems.
#![tactic(auto)]
