// Networks in the Berkeley Logic Interchange Format: definitions and laws, no code.
#![tactic(auto)]
