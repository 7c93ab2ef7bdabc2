// The promises to the user, each one theorem over the contracts of the crates below. There is no code here.
#![tactic(auto)]
