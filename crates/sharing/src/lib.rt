// Theorems alone: what the cells that the packer gives are worth.
#![tactic(auto)]
