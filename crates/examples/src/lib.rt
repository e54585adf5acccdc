// No code: document 01's examples and counts, as theorems about the layers' definitions. The
// statements stand in specs/, their proofs in proofs/.
#![tactic(auto)]
