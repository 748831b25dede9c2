// What a host sees of the tree and of the plain engine: definitions and laws alone.
#![tactic(auto)]
