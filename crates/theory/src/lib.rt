// Theorems about the definitions of `format`, apart from code: they stand in specs/.
#![tactic(auto)]
