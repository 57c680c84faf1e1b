// The top frame's own steps over the lent cells and stack: load, build and branch, until it rests. For the crates above.
#![tactic(auto)]

mod state; // state.rt: the top frame in registers, and why it rests
mod steps; // steps.rt: load, build, branch, and the loop over them

pub use state::{Registers, Rest, Table};
pub use steps::straight;
