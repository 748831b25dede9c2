// Aligned blocks of indices, searches of lists and bits of words: definitions and laws that every crate above uses.
// It has no code.
#![tactic(auto)]
