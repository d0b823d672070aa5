// No code: what the finer numbers of M-102 tell, and where they point, proved of the accounts of judging, writer and ihex.
#![tactic(auto)]
