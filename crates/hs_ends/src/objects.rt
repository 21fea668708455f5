//! The objects of a program, with the types that they have at its end (X3.159-1989 3.7.2).

ghost use Rattle.std.specs.Prelude.{◌≡◌, ◌++◌, ◌∷◌, [], IfOk};
ghost use Rattle.hs_ends.specs.Ends.{finished_object, global_of, globals_of, sized_global, sized_globals};

use hs_base::NoMemory;
use hs_linkage::StaticObject;
use hs_tree::{Global as Object, VariableDecl};
use hs_typer::next_place;
use hs_types::{Row, TypeEnd, TypeId, Types};
use indexmap::IndexSet;
use std::alloc::Global;

/// The type of an object at the end: an array whose length is in no declaration has one element.
fn finished_object(types: &mut Types, id: TypeId) -> Result<TypeId, NoMemory>
    ensures { IfOk result (λ made. finished_object id types.old ≡ (made, types.new)) }
{
    match types.row(id) {
        Some(Row::OpenArray(of)) => match types.array_of(of, 1) {
            Ok(made) => Ok(made),
            Err(TypeEnd::NoMemory) => Err(NoMemory),
            Err(TypeEnd::Incomplete | TypeEnd::TooLarge | TypeEnd::Redefined) => Ok(id),
        },
        Some(
            Row::Void
            | Row::Integer(_)
            | Row::Pointer(_)
            | Row::Enumeration(_)
            | Row::Struct(_)
            | Row::Array { .. }
            | Row::Function { .. },
        )
        | None => Ok(id),
    }
}

/// An object of that type, marked if its address is taken, without its size.
fn global_of(mark: bool, it: StaticObject, id: TypeId) -> Object
    ensures { result ≡ global_of mark it id }
{
    let StaticObject {
        variable,
        parts,
        ..
    } = it;
    let VariableDecl { name, at, .. } = variable;
    Object {
        variable: VariableDecl {
            name,
            at,
            type_id: id,
            taken: mark,
        },
        size: 0,
        parts,
    }
}

/// The object, with the size of its type. It has no bytes if that is incomplete.
fn sized_global(types: &Types, it: Object) -> Object
    ensures { result ≡ sized_global types.now it }
{
    let size = match types.layout(it.variable.type_id) {
        Some(layout) => layout.size,
        None => 0,
    };
    let Object {
        variable,
        parts,
        ..
    } = it;
    Object {
        variable,
        size,
        parts,
    }
}

/// The list, with one item more.
fn with<T: Drop>(done: Vec<T>, it: T) -> Result<Vec<T>, NoMemory>
    ensures { IfOk result (λ all. all.items ≡ done.items ++ it ∷ []) }
{
    let mut all = done;
    all.push(it)?;
    Ok(all)
}

/// The objects of a program, in their order, marked by the places of those whose addresses it takes, without their sizes.
///
/// Example: `int a[];` becomes an array of one element, without its size yet.
pub fn globals_of(
    alloc: Global,
    types: &mut Types,
    marks: &IndexSet<u32>,
    its: Vec<StaticObject>,
) -> Result<Vec<Object>, NoMemory>
    ensures { IfOk result (λ all. globals_of marks.now.keys 0 [] its.items types.old ≡ (all.items, types.new)) }
{
    let mut done = Vec::new(alloc);
    let mut place = 0u32;
    'its: for it in its {
        let id = finished_object(types, it.variable.type_id)?;
        let mark = marks.contains(&place);
        done = with(done, global_of(mark, it, id))?;
        place = next_place(place)?;
    }
    Ok(done)
}

/// The objects, with the sizes of their types.
///
/// Example: 4 bytes for `long x;`.
pub fn sized_globals(
    alloc: Global,
    types: &Types,
    its: Vec<Object>,
) -> Result<Vec<Object>, NoMemory>
    ensures { IfOk result (λ all. all.items ≡ sized_globals types.now its.items) }
{
    let mut done = Vec::new(alloc);
    'its: for it in its {
        done = with(done, sized_global(types, it))?;
    }
    Ok(done)
}
