// The laws of an input field's calls: when each status is given, keys cut in two, what stays within limits, what the user has chosen. The statements are in specs/, the proofs in proofs/. There is no code here.
#![tactic(auto)]
