// No code: what a replay of a lab trace is (RULES 16), and what follows from it.
#![tactic(auto)]
