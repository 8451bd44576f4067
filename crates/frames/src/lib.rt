// No code: what request 2026-04 says of frames (specs/), and that it holds (proofs/).
#![tactic(auto)]
