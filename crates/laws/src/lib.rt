// No product code: this crate is the laws that the others cite (specs/ and proofs/).
#![tactic(auto)]
