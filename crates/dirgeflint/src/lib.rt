// The C face: what a C or Rust host links, declared for C in include/dirgeflint.h. Each function takes every input and promises what the
// function below it promises, by the same definitions.
#![tactic(auto)]

mod dac_face;
mod display_face;
mod hex_face;
mod packer_face;
mod port_face;
mod pulse_face;
mod writer_face;
