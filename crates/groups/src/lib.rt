// The group of nets that each net becomes: definitions and laws, and no code.
#![tactic(auto)]
