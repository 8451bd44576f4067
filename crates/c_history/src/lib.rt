// Demand 3 and request 2026-12 for calls from C: definitions and the theorems, no code.
#![tactic(auto)]
