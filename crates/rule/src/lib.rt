// The bus with its targets bit by bit, driven by the controller's steps; the plain rule; and the proof that a pass ends as the rule says.
// No code. Rests on arp and targets.
#![tactic(auto)]
