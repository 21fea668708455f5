//! Code: what the functions of a program become, as lists of operations on a stack. `specs/Following.antt` says which operations follow one
//! another, and `specs/Stacks.antt` what each does to the stack.
#![tactic(auto)]

mod code;
mod effects;
mod function_code;
mod op;
mod successors;

pub use code::Code;
pub use effects::Effects;
pub use function_code::{Case, Cases, FunctionCode, Operations, Placed};
pub use op::{Access, Binary, Goal, Object, Op, Unary};
pub use successors::{Successors, succ};
