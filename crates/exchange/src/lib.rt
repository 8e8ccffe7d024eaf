// A bus of real modules, bit by bit: the controller's symbols walk over it. It shows what the model's bus shows, and the modules end as the
// model's targets. No code. Rests on module and rule.
#![tactic(auto)]
