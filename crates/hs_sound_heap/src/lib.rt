//! What a part of a run may do to the blocks of the heap, if it has only some effects. `specs/Since.antt` has the relation, and `specs/Roles.antt` and
//! `specs/Shifts.antt` what each role of a routine and each decision of the schedule do. The crate is definitions and laws, without code.
#![tactic(auto)]
