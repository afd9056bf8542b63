// Pure laws on tests, lists and whole numbers, which the proofs of the other crates cite. No code that runs.
#![tactic(auto)]
