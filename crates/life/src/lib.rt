// A table's life: what holds over any calls of the machine. The calls as data and the machine after them are in specs/, the theorems in
// proofs/. It has no code.
#![tactic(auto)]
