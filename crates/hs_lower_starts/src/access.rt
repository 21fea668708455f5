//! What a store of a first value reaches.

ghost use Rattle.std.specs.Prelude.{◌≡◌};
ghost use Rattle.hs_lower_expressions.specs.Contexts.{setting_in};
ghost use Rattle.hs_lowering.specs.Lowering.{access_in};
ghost use Rattle.hs_meaning.specs.Classes.{class_of_type, class_of_scalar};
ghost use Rattle.hs_meaning.specs.Settings.{access_of_type};
ghost use Rattle.hs_types.specs.TypeTables.{size_of};

use hs_code::Access;
use hs_lower_expressions::Context;
use hs_scalars::Scalar;
use hs_tree::Class;
use hs_types::{Integer, Row, TypeId, Types};

/// The size of a type in bytes, or 0 if it is incomplete.
fn size_of(types: &Types, type_id: TypeId) -> u32
    ensures { result ≡ size_of types.now type_id }
{
    match types.layout(type_id) {
        Some(layout) => layout.size,
        None => 0,
    }
}

/// The class of a pointer that is no field.
pub(crate) fn class_of_type(context: &Context, type_id: TypeId) -> Class
    ensures { result ≡ class_of_type context.now.same.now type_id }
{
    Class::Pointer(context.same.type_for(type_id))
}

/// The class of a scalar inside an object.
pub(crate) fn class_of_scalar(context: &Context, its: Scalar) -> Class
    ensures { result
        ≡ class_of_scalar context.now.same.now context.now.taken.now its.type_id its.field }
{
    let Some(field) = its.field else {
        return class_of_type(context, its.type_id);
    };
    let field = context.same.field_for(field);
    if context.taken.has(field) {
        class_of_type(context, its.type_id)
    } else {
        Class::Field(field)
    }
}

/// What a store reaches of an object of that type, whose class is that one if it is a pointer.
#[tactic(auto, unfolding(hs_lower_expressions::specs::Contexts::setting_in))]
pub(crate) fn access_of_type(context: &Context, type_id: TypeId, class: Class) -> Access
    ensures { result ≡ access_in (access_of_type (setting_in context.now) type_id class) }
{
    match context.types.row(type_id) {
        Some(Row::Integer(kind)) => Access::Number(kind),
        Some(Row::Enumeration(_)) => Access::Number(Integer::Int),
        Some(Row::Pointer(_)) => Access::Pointer(context.classes.number(&class)),
        Some(
            Row::Void
            | Row::Struct(_)
            | Row::Array { .. }
            | Row::OpenArray(_)
            | Row::Function { .. },
        )
        | None => Access::Struct(size_of(context.types, type_id)),
    }
}
