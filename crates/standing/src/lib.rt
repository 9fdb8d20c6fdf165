// Where all parties stand in an auction's run. There is no code here.
#![tactic(auto)]
