//! What the machine needs of a program.

ghost use Rattle.std.specs.Prelude.{◌≡◌, ◌<◌, ◌≤◌, length, IfOk, IfSome};
ghost use Rattle.std.specs.List.{position};
ghost use Rattle.hs_code.specs.Codes.{view_program};
ghost use Rattle.hs_code_run.specs.Steps.{access_of};
ghost use Rattle.hs_meaning.specs.Classes.{class_of_scalar, class_of_type, classes_of, same_class};
ghost use Rattle.hs_meaning.specs.Settings.{access_of_type, class_number, setting_of};
ghost use Rattle.hs_types.specs.TypeTables.{size_of};

use hs_base::NoMemory;
use hs_code::Access;
use hs_tree::{Class, Globals, Literals, Part, Program, Representatives, Routines, TakenFields};
use hs_types::{Integer, Row, TypeId, Types};

/// What the machine needs of a program, apart from the bodies of its functions.
#[derive(Clone, Copy)]
pub struct Setting<'a> {
    /// The types of the program.
    pub types: &'a Types,
    /// The objects of static storage duration.
    pub globals: &'a Globals,
    /// The string literals.
    pub literals: &'a Literals,
    /// The routines of the table.
    pub routines: &'a Routines,
    /// Which types are one in several units.
    pub same: &'a Representatives,
    /// The fields whose address is taken.
    pub taken: &'a TakenFields,
    /// The classes of pointers.
    pub classes: &'a [Class],
    pub ghost few: { length classes.now ≤ 4294967295 },
}

/// The place of a class in a list, if it is there.
fn place_of(classes: &[Class], class: &Class) -> Option<usize>
    ensures place { result ≡ position (same_class class.now) classes.now }
    ensures below { IfSome result (λ place. place < length classes.now) }
{
    classes.iter().position(|it| class == it)
}

impl<'a> Setting<'a> {
    ghost use Rattle.hs_state.specs.Settings.{setting_here};

    /// The setting of a program, with the list of its classes.
    ///
    /// # Errors
    ///
    /// `NoMemory` if their numbers would not fit into 32 bits; so many classes are in no memory.
    pub fn of(program: &'a Program, classes: &'a [Class]) -> Result<Setting<'a>, NoMemory>
        requires classes { classes.now ≡ classes_of (view_program program.now) }
        ensures { IfOk result (λ its. setting_here its ≡ setting_of (view_program program.now)) }
    {
        if classes.len() > u32::MAX as usize {
            return Err(NoMemory);
        }
        Ok(Setting {
            types: &program.types,
            globals: &program.globals,
            literals: &program.literals,
            routines: &program.routines,
            same: &program.same,
            taken: &program.taken,
            classes,
        })
    }

    /// The size of a type in bytes, or 0 if it is incomplete.
    pub fn size_of(&self, type_id: TypeId) -> u32
        ensures { result ≡ size_of self.now.types.now type_id }
    {
        match self.types.layout(type_id) {
            Some(layout) => layout.size,
            None => 0,
        }
    }

    /// The class of a pointer that is no field.
    pub fn class_of_type(&self, type_id: TypeId) -> Class
        ensures { result ≡ class_of_type self.now.same.now type_id }
    {
        Class::Pointer(self.same.type_for(type_id))
    }

    /// The class of a scalar inside an object.
    pub fn class_of_part(&self, part: &Part) -> Class
        ensures { result ≡ class_of_scalar self.now.same.now self.now.taken.now part.now.type_id part.now.field }
    {
        let Some(field) = part.field else {
            return self.class_of_type(part.type_id);
        };
        let field = self.same.field_for(field);
        if self.taken.has(field) {
            self.class_of_type(part.type_id)
        } else {
            Class::Field(field)
        }
    }

    /// The number of a class: its place among those of the program, or their number if it is not there.
    fn class_number(&self, class: &Class) -> u32
        ensures { result ≡ class_number (setting_here self.now) class.now }
    {
        match place_of(self.classes, class) {
            Some(place) => place as u32,
            None => self.classes.len() as u32,
        }
    }

    /// What a store reaches of an object of that type, whose class is that one if it is a pointer.
    pub fn access_of_type(&self, type_id: TypeId, class: Class) -> Access
        ensures { access_of result ≡ access_of_type (setting_here self.now) type_id class }
    {
        match self.types.row(type_id) {
            Some(Row::Integer(kind)) => Access::Number(kind),
            Some(Row::Enumeration(_)) => Access::Number(Integer::Int),
            Some(Row::Pointer(_)) => Access::Pointer(self.class_number(&class)),
            Some(
                Row::Void
                | Row::Struct(_)
                | Row::Array { .. }
                | Row::OpenArray(_)
                | Row::Function { .. },
            )
            | None => Access::Struct(self.size_of(type_id)),
        }
    }
}
