// "Desks resend a bid when a line drops": that a bid which is sent again does not count twice, and that
// bids leave the same in any order. There is no code here.
#![tactic(auto)]
