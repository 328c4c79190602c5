// The paper's worked cases 1 to 12, and what it prints, held to the definitions: two tables, a claim for each, and no code.
#![tactic(auto)]
