// The protocol of test commands: the words of a command, and the line of an answer. docs/COMMANDS.md describes it.
#![tactic(auto)]

pub mod answers; // answers.rt: the answer lines
pub mod hex; // hex.rt: bytes as digits
pub mod lent; // lent.rt: lent tables before and after a call
pub mod words; // words.rt: the words of a line
