// The words of a pool of names decode to the one list and numbering that prescribe them: laws alone. It has no code.
#![tactic(auto)]
