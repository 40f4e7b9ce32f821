// What a word's periods, holes and tables are. No code: the definitions stand in specs/, their laws in proofs/.
#![tactic(auto)]
