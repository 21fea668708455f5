//! What typing knows at a place of the text, and the parts of declarations that hold no expressions (X3.159-1989 3.1.2 and 3.5).
//! `specs/Steps.antt` has the steps of typing, and `specs/Origins.antt` which types of several units are one.
#![tactic(auto)]

mod agreement;
mod bodies;
mod closing;
mod declarators;
mod held;
mod log;
mod marks;
mod members;
mod origins;
mod specifiers;
mod structs;
mod type_error;
mod typer;

pub use agreement::{agree, first_name};
pub use bodies::{
    begun_enumeration, begun_struct, completed_enumeration, completed_struct, enumeration_type,
    enumerator, int_of, next_bits, next_of, opened_struct, struct_type, tagged_enumeration,
    tagged_struct, with_member,
};
pub use closing::fits_first;
pub use declarators::{
    Derivation, constant_of, declare, formed, length_of, list_of, next_place, parameter, place_of,
    with_pointers, word_of,
};
pub use held::{pushed, pushed_copy};
pub use log::Log;
pub use marks::{Mark, Tentative};
pub use members::Members;
pub use origins::{Brace, Braces, Origin, Origins};
pub use specifiers::{Specifiers, Words, with_typedef};
pub use structs::Structs;
pub use type_error::{TypeError, copied, undeclared};
pub use typer::{Entity, RoutineCall, Tag, Taken, Typer};
