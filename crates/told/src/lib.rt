// What the machine writes is read: from idle until idle again its cells are a record, and the record says what was done. The calls told as a
// reading are in specs/, the theorems in proofs/. It has no code.
#![tactic(auto)]
