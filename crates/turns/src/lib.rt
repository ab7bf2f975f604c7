// A line's paths in turn: how many there are, and the room that a journal has to have for them. Theorems only: see specs/.
#![tactic(auto)]
