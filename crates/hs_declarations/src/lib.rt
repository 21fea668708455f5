//! Declarations of file scope and of blocks (X3.159-1989 3.5 and 3.7.2). `specs/Declarations.antt` has the definition.
#![tactic(auto)]

mod block_scope;
mod file_scope;
mod fronts;
mod starts;
mod typedefs;

pub use block_scope::{block_declaration, new_local};
pub use file_scope::{file_declaration, is_static, is_typedef_word};
pub use fronts::{Front, first_place, front_of, item_type, storage_place};
pub use starts::must_be_whole;
