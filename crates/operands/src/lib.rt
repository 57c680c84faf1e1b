// The operand stack of the type pass: the types on it, and what each operation does to them.
#![tactic(auto)]

mod operation; // operation.rt: what each operation does to the types of the stack
mod stack; // stack.rt: the types of a stack, by value

pub use operation::{TypedStep, branch, finish, load, make};
pub use stack::Stack;
