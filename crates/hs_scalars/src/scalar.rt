//! A number or a pointer inside an object.

use hs_types::{FieldId, TypeId};

/// A number or a pointer inside an object: its byte, its type, and the field that it is, if it is one.
#[derive(Clone, Copy, PartialEq, Eq)]
pub struct Scalar {
    /// The byte from the start of the object at which it lies.
    pub offset: u32,
    /// Its type.
    pub type_id: TypeId,
    /// The field of a struct that it is, if it is one. An element of an array is not one.
    pub field: Option<FieldId>,
}
