// The run over the lent tables: the top frame until it rests, then a call, a return or an end. For the crates above.
#![tactic(auto)]

mod frames; // frames.rt: call and return
mod run; // run.rt: the run, until it ends

pub use run::{End, drive};
