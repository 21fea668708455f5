//! The types of C as they are read here (X3.159-1989 3.1.2.5): each once in a table, with what its objects take in memory, and the
//! conversions of numbers (3.2.1). `specs/Integers.antt`, `specs/Layouts.antt` and `specs/TypeTables.antt` have the definitions.
#![tactic(auto)]

mod body;
mod integer;
mod interned;
mod laying;
mod layout;
mod row;
mod types;

pub use body::{Body, Constants, Enumerator, Field, Fields, Member};
pub use integer::Integer;
pub use layout::Layout;
pub use row::{FieldId, ListId, Parameters, Row, TypeId};
pub use types::{TypeEnd, Types};
