// No code: what a walk by finds reports, over pauses and changes (specs/Walk), and the same of a host's (specs/Host).
#![tactic(auto)]
