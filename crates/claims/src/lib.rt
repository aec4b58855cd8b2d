// The claims about the whole library, over the definitions that the contracts use: demand 3, what every
// call answers, what the change requests left as it was, and the cases in one joint table that is
// computed. There is no code here.
#![tactic(auto)]
