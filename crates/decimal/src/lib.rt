// Numbers as decimal digits: definitions in specs/, their laws in proofs/, and no code.
#![tactic(auto)]
