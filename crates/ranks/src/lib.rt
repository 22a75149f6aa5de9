// Ranking, ranks and leaving the ranked form as functions of memory. No code.
#![tactic(auto)]
