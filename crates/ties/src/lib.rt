// No code: the contract of every call and every entry for C is the one predicate that the promises are about, whole.
#![tactic(auto)]
