// What the contract of every call on a set says. No code.
#![tactic(auto)]
