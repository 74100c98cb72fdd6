// The writer's two passes as definitions, and theorems about them, apart from code: they stand in specs/.
#![tactic(auto)]
