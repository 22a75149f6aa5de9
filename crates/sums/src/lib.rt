// No code: counting, plain sets of ids, ranks and cuts.
#![tactic(auto)]
