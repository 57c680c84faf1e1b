// The lent tables of a run: cells, stack places and frames. The one crate that knows how they are laid out. For the crates above.
#![tactic(auto)]

mod cells; // cells.rt: constants and cells by their number, five numbers to a cell
mod copying; // copying.rt: at most four numbers copied
mod frames; // frames.rt: frames stored, read and cleared, one record to a frame
mod limits; // limits.rt: what is usable of the tables, and made zero after the run

pub use cells::{argument_at, constructor_at, is_constant, put_cell, spread};
pub use copying::{copy, copy_within};
pub use frames::{Frame, clear_frames, frame_at, put_frame};
pub use limits::{Limits, usable, wipe};
