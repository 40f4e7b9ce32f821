// How much of a pattern begins at each position of a text, and the comparisons of Knuth, Morris and Pratt carried on to the text's end. No code:
// the definitions stand in specs/, their laws in proofs/.
#![tactic(auto)]
