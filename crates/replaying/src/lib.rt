// A log and its moved form, played: no function, but the theorem over the contracts of the step and of the move.
#![tactic(auto)]
