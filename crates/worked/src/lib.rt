// No product code: the worked examples that document 01 marks to be proved (specs/ and proofs/).
#![tactic(auto)]
