// No code: lists of calls, what demand 3 says of every list and request 2026-12 of the calls after a stop (specs/), and
// the proofs (proofs/).
#![tactic(auto)]
