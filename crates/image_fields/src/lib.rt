// Bit fields and bytes: definitions and laws alone.
#![tactic(auto)]
