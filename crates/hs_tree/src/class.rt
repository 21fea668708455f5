//! The classes of pointers.

ghost use Rattle.std.specs.Prelude.{◌≡◌};
ghost use Rattle.hs_tree.specs.Classes.{class_of};
ghost use Rattle.hs_tree.specs.Views.{view_left};

use crate::{Head, Lvalue, Representatives, TakenFields};
use hs_types::{FieldId, Row, TypeId, Types};

/// The class of an lvalue of pointer type (own). A pointer is loaded only through the class with which it was stored, so what is
/// stored in one class never comes out of another.
#[derive(Clone, Copy, Debug, PartialEq, Eq, Hash)]
pub enum Class {
    /// A field whose address the program never takes, by the field that stands for it.
    Field(FieldId),
    /// Any other pointer, by the type that stands for its type.
    Pointer(TypeId),
}

impl Class {
    /// The class of the lvalue, or `None` if its type is no pointer.
    ///
    /// Example: the field `next` for `p->next`, unless the program has `&q->next` somewhere; then it is the type of the field.
    pub fn of(
        types: &Types,
        same: &Representatives,
        taken: &TakenFields,
        object: &Lvalue,
    ) -> Option<Class>
        ensures { result ≡ class_of types.now same.now taken.now (view_left object.now) }
    {
        let type_id = object.head().type_id;
        let Some(Row::Pointer(_)) = types.row(type_id) else {
            return None;
        };
        match object {
            Lvalue::Member { field, .. } | Lvalue::Arrow { field, .. }
                if !taken.has(same.field_for(*field)) => {
                Some(Class::Field(same.field_for(*field)))
            }
            Lvalue::Variable { .. }
            | Lvalue::Literal { .. }
            | Lvalue::Target { .. }
            | Lvalue::Element { .. }
            | Lvalue::Member { .. }
            | Lvalue::Arrow { .. } => Some(Class::Pointer(same.type_for(type_id))),
        }
    }
}
