//! Must facts and effects: what is true before an operation on every control path, and what a function may do. `specs/MustFacts.antt` has the facts,
//! `specs/Changes.antt` what each operation does to them, `specs/Rounds.antt` which of them hold, and `specs/Effects.antt` the effects. The crate is
//! definitions and laws, without code.
#![tactic(auto)]
