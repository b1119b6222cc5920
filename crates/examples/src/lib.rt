// Paper 01, 'Examples at the edges': P1 to P12 as one table in specs/, and one proved claim over it in proofs/. There is no code here.
#![tactic(auto)]
