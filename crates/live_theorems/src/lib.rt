// No code: what is true of every list of live bracket calls, from their contracts. The statements stand in
// specs/, their proofs in proofs/.
#![tactic(auto)]
