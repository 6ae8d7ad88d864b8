// Two events on unrelated calls give the same in either order: no function, but definitions and theorems over the
// contract of `ect::step`.
#![tactic(auto)]
