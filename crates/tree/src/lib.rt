// The canonical tree (document 01: the tree a list prescribes), as definitions and laws over the model. It has no code.
//
// tier: a block of tier u has 64^u indices; the node (u, b), of shift 6u - 6, covers block b of tier u, and its
// slots are blocks of tier u - 1.
#![tactic(auto)]
