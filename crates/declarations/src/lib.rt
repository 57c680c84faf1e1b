// The rules on what a program declares: types and weights, 5, and arguments in the size bound, 6.
#![tactic(auto)]

mod bounding; // bounding.rt: 6
mod declaring; // declaring.rt: 5

pub use bounding::bounded;
pub use declaring::declared;
