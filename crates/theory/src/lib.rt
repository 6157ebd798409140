// The demands of document 01 as statements over whole lists of calls (specs/Demands.antt, specs/Linearization.antt), and their proofs (proofs/Demands.antt, proofs/Linearization.antt).
// There is no code here: what is proved is proved of the definitions of `model`, and `index` ties its calls to them.

#![tactic(auto)]
