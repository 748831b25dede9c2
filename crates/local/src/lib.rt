// What each node of a pool must show by itself, with the nodes that it names (specs/Local): that makes the words those of the decoded
// list, and no other words show it. It has no code.
#![tactic(auto)]
