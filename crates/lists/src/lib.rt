// No code: definitions over lists and numbers, and laws about them, which the other crates cite.
#![tactic(auto)]
