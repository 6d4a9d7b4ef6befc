// Document 01 as definitions (specs/) and the theorems about them (proofs/). No code: the crates above prove theirs against these definitions.
#![tactic(auto)]
