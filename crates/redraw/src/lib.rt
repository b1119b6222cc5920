// What request 02's marks tell a host that draws only marked lines anew: the statements in specs/, the proofs in proofs/. There is no code here.
#![tactic(auto)]
