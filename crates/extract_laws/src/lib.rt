// Fast extract: what it is, and its laws. Definitions in specs/, laws in proofs/, and no code.
#![tactic(auto)]
