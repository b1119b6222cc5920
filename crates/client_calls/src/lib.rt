// The laws of single calls by client: when each status is given, what a refused call changes, an opening, a closing and a taking leave, a stream cut in two, a block put straight back. The statements are in specs/, the proofs in proofs/. There is no code here.
#![tactic(auto)]
