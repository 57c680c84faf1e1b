// The records of a payload as they stand there, byte for byte, and two things that are made of them.

// The header: the edition, and how many types, constructors and functions follow.
#[derive(Clone, Copy)]
pub struct Header {
    pub edition: u8,
    pub types: u8,
    pub constructors: u8,
    pub functions: u8,
}

// What a constructor and a function head both begin with: a result type and four argument types, of which arity count.
#[derive(Clone, Copy)]
pub struct Declaration {
    pub result: u8,
    pub arity: u8,
    pub types: [u8; 4],
}

#[derive(Clone, Copy)]
pub struct ConstructorRecord {
    pub declaration: Declaration,
    pub weight: u8,
    pub reserved: u8,
}

// A function head: how many alternatives its size bound has, and how many instructions its code.
#[derive(Clone, Copy)]
pub struct HeadRecord {
    pub declaration: Declaration,
    pub alternatives: u8,
    pub reserved: u8,
    pub instructions: u16,
}

#[derive(Clone, Copy)]
pub struct AlternativeRecord {
    pub coefficients: [u8; 4],
    pub constant: u16,
}

#[derive(Clone, Copy)]
pub struct InstructionRecord {
    pub operation: u8,
    pub a: u8,
    pub b: u16,
}

// An instruction with its operands: a slot, a constructor, a function, a constructor and the else target.
#[derive(Clone, Copy)]
pub enum Instruction {
    Load(u8),
    Build(u8),
    Call(u8),
    Branch(u8, u16),
    Return,
    Stop,
}

// A max-plus alternative: a sum of coefficient × size, and a constant. In a size bound there is a coefficient for each
// argument, in a size form one for each of 16 variables. Those of a form that four covered entries make are at most 900, so that 16
// bits hold them: forms go by value, and their size is what the check spends its time on.
#[derive(Clone, Copy)]
pub struct Alternative {
    pub coefficients: [u16; 16],
    pub constant: u32,
}
