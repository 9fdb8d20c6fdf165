// Whole auctions: runs, and what is proved of every run. There is no code here.
#![tactic(auto)]
