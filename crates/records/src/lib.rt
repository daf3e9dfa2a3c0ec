// Reader and writer together: the reader accepts exactly the layouts, its place is that of the first cell that none of them can continue, and each
// undoes what the other did. What is shown is in specs/, the theorems are in proofs/. It has no code.
#![tactic(auto)]
