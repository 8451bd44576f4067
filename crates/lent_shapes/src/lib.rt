// No code: why a call on a lent record meets its promise, once for each shape of parameter list (proofs/).
#![tactic(auto)]
