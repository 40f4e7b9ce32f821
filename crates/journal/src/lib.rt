// A journal of comparisons, and the search that goes by its answers: document 02's request C-21. No code: the definitions stand in specs/, their
// laws in proofs/.
#![tactic(auto)]
