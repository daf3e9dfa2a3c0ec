// What is asked of a run on the bench, over any sound idle machine on which a run may begin, any 0 to 32 boards and any flips: on the wire it is the
// plain rule's run; each answered round goes to the smallest identity still without an address, and its bearers take or refuse together; accepted
// identities rise; the rounds are few; the machine is idle and sound afterwards; and the record is read with exactly these offers. The
// same is stated of what `bench::run` hands back, and of boards lent as one list (`lent::run`). It has no code.
#![tactic(auto)]
