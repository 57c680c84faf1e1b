// What the interpreter reads of a program, from the lent blocks: arities, and instructions by their place. An index has the places of each
// function.
#![tactic(auto)]

mod arities; // arities.rt: the arities of constructors and functions
mod fetching; // fetching.rt: the instruction at a place
mod index; // index.rt: where each function's arity and code stand
mod places; // places.rt: places in the file and offsets in the payload

pub use arities::{constructor_arity, function_arity};
pub use fetching::{Fetched, fetch};
pub use index::{Index, code_at, index_of};
pub use places::{number_at, place_behind};
