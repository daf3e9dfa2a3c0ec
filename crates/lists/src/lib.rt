// Lists, numbers, bits and parts of buffers: the definitions that the other crates' promises are told with (specs/), and the laws that
// their proofs cite (proofs/). It has no code, and knows nothing of the rack.
#![tactic(auto)]
