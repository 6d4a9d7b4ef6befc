// Document 01's refusals and their order, and what replace-all and piece answer, as computed claims about `paper`'s definitions. No code.
#![tactic(auto)]
