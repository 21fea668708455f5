//! Calls of routines make the must facts true that they give, by the role of the routine. `specs/Roles.antt` has what a role owes, `specs/QuietRoles.antt`
//! and `specs/HandleRoles.antt` go over the roles, and `specs/Restores.antt` is about a state byte that is put back. The crate is definitions and laws,
//! without code.
#![tactic(auto)]
