// The type pass, 8: the types of the stack along the paths of each function's code.
#![tactic(auto)]

mod signature; // signature.rt: the signature that an instruction names
mod step; // step.rt: one instruction
mod walk; // walk.rt: the pass over a function's code, and over all functions

pub use walk::types;
