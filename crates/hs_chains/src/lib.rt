//! Chains: the ways of a fact through the operations of a program, through its calls and back, and the hazards to which they lead.
//! `specs/Knowledge.antt` says what is known at each operation, `specs/Chains.antt` what a chain is, and `specs/Hazards.antt` what a hazard is. The
//! crate is definitions and laws, without code.
#![tactic(auto)]
