// "A keeper who has dropped off": that the words of those who were not present change nothing of a hearing. There is no
// code here.
#![tactic(auto)]
