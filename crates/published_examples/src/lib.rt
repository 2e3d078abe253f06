// No code: published examples, computed on the definitions. They stand apart so that no edit of the code computes them again.
#![tactic(auto)]
