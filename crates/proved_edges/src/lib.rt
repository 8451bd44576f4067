// No code: the worked cases that the paper marks as proved and those of the requests (specs/), and the proof of all of
// them together (proofs/).
#![tactic(auto)]
