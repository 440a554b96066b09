// No code: the re-exposure theorem about the definitions of `rules`. Its statement stands in specs/,
// its proof in proofs/.
#![tactic(auto)]
