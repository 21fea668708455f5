//! The names that are declared, by scope (X3.159-1989 3.1.2.1). `specs/Scopes.antt` has the definitions.
#![tactic(auto)]

mod scopes;

pub use scopes::Scopes;
