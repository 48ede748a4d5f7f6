// No code: the customer's demands as theorems, in specs/.
#![tactic(auto)]
