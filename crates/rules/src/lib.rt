// What the definitions and the code share: the records of a program and the answers. There is no algorithm here.
#![tactic(auto)]

pub mod answers;
pub mod records;
