// No code: the ledger that the calls' contracts cite (specs/), and its laws (proofs/).
#![tactic(auto)]
