// No product code: what writing a font and reading its text make of each other (specs/ and proofs/).
#![tactic(auto)]
