// No code: what is true of every quadrants call, from its contract. The statements stand in specs/, their
// proofs in proofs/.
#![tactic(auto)]
