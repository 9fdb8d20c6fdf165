// "Shares open to the amount split": what the shares of a bid and of a sheet open to. There is no code
// here.
#![tactic(auto)]
