// The 16-slot tree that a list of keys prescribes (request P10), as definitions and laws. It has no code.
#![tactic(auto)]
