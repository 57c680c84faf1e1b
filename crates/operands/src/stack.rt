// The types of a stack, by value.
ghost use Rattle.std.specs.Prelude.{◌≡◌, ◌≤◌, length};

use rules::records::Declaration;

// The top is at height - 1. The types come first: a copy reads sixteen bytes and then eight, and waits where they were written as
// eight and then sixteen.
#[derive(Clone, Copy)]
pub struct Stack {
    pub types: [u8; 16],
    pub height: usize,
    pub ghost places: { length types ≡ 16 },
    pub ghost within: { height ≤ 16 },
}

impl Stack {
    ghost use Rattle.std.specs.Prelude.{[], ◌++◌, ◌+◌};
    ghost use Rattle.std.specs.Option.{option_map};
    ghost use Rattle.rules.specs.Records.{arguments_of};
    ghost use Rattle.operands.specs.Operands.{stack_of, grown, below_of};

    // For the crates above: no types at all.
    pub fn empty() -> Stack
        ensures { stack_of result ≡ [] }
    {
        Stack {
            height: 0,
            types: [0; 16],
        }
    }

    // These types on top, the first deepest.
    fn push(self, more: &[u8]) -> Stack
        requires { self.height + length more.now ≤ 16 }
        ensures { stack_of result ≡ stack_of self ++ more.now }
    {
        let height = self.height + more.len();
        let mut types = self.types;
        types[self.height..height].copy_from_slice(more);
        Stack { height, types }
    }

    // For the crates above: the argument types of a declaration on top, the first deepest.
    pub fn push_arguments(self, d: Declaration) -> Stack
        requires { (d.arity ≤ 4) × (self.height + d.arity ≤ 16) }
        ensures { stack_of result ≡ stack_of self ++ arguments_of d }
    {
        self.push(&d.types[..usize::from(d.arity)])
    }

    // These types on top, where the height allows it.
    pub fn grow(self, more: &[u8]) -> Option<Stack>
        ensures { option_map stack_of result ≡ grown (stack_of self ++ more.now) }
    {
        if more.len() > 16 - self.height {
            return None;
        }
        Some(self.push(more))
    }

    // What is below these types, where the stack ends in them.
    pub fn below(self, top: &[u8]) -> Option<Stack>
        ensures { option_map stack_of result ≡ below_of top.now (stack_of self) }
    {
        if !self.types[..self.height].ends_with(top) {
            return None;
        }
        Some(Stack {
            height: self.height - top.len(),
            types: self.types,
        })
    }
}
