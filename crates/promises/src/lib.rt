// No code: demands 1, 2 and 3 over the contracts of the calls.
#![tactic(auto)]
