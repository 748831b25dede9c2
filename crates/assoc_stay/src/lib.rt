// What stays of the tree of names when one key comes or goes: laws alone. It has no code.
#![tactic(auto)]
