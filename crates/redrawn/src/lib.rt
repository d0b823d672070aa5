// Theorems alone: a screen can be drawn by its glyphs, or by words that have their cells for codes, and the lines are the same.
#![tactic(auto)]
