// No product code: what the DAC puts out over every sequence of calls, demand 3 first of all (specs/ and proofs/).
#![tactic(auto)]
