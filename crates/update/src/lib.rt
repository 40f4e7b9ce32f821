// A list of positions brought up to date after one byte of the text was corrected: document 02's request C-22. No code: the definitions stand in
// specs/, their laws in proofs/.
#![tactic(auto)]
