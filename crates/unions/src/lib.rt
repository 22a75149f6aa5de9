// No code: union as a function of two memories, on any two, and that it is document 01's where both follow the layout.
#![tactic(auto)]
