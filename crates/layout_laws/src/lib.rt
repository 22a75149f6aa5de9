// No code: the laws of the layout.
#![tactic(auto)]
