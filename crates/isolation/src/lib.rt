// Demand 3 of the customer's request, over any list of calls by client: the statement in specs/, the proofs in proofs/. There is no code here.
#![tactic(auto)]
