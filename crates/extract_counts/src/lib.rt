// What the cubes of a network add to the gain of each divisor: definitions and laws.
#![tactic(auto)]
