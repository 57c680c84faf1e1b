// The arguments of a run: the check of their bytes, and their cells. For the crates above.
#![tactic(auto)]

mod checking; // checking.rt: the check, one byte after the other
mod loading; // loading.rt: the cells, from the last byte to the first

pub use checking::check_arguments;
pub use loading::{Pending, enough, make_arguments};
