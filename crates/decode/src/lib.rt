// Decoding: the list and the places read off the words of a pool are those that prescribe the words, so both are
// unique. Laws over layout's definitions; it has no code.
#![tactic(auto)]
