// Theorems alone: the painted line that document 01 works through, and what M-101 claims of pictures.
#![tactic(auto)]
