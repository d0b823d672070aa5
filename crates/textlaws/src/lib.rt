// No code: what an accepted text's image depends on, proved of the account in crate ihex (proofs/).
#![tactic(auto)]
