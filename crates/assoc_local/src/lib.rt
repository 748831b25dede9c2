// What each block of a pool of names must show by itself, and that this is exactly being well-formed: laws alone. It has no code.
#![tactic(auto)]
