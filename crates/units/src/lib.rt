// Dots, counted in OSD clocks, and scan lines: two types, so that one is never passed for the other.
#![tactic(auto)]

#[derive(Clone, Copy)]
pub struct Dots(pub usize);

#[derive(Clone, Copy)]
pub struct Lines(pub usize);
