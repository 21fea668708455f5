//! What must facts say of a call of a run, and how a call keeps them. `specs/Truth.antt` has what a fact says, `specs/Linked.antt` what a call knows of its
//! caller, `specs/Good.antt` the fact of each call that a run keeps, and `specs/Frames.antt` the rule for an operation that changes no variable. The crate is
//! definitions and laws, without code.
#![tactic(auto)]
