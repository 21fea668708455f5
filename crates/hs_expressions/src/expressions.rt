//! What every expression is, as a typed tree, or the first refusal (X3.159-1989 3.3). Type names, struct bodies and array lengths hold
//! expressions, so they are one recursion with them.

ghost use Rattle.std.specs.Prelude.{◌≡◌, map, [], false, Some, if◌then◌else◌};
ghost use Rattle.hs_expressions.specs.Expressions.{typed, typed_all, typed_lefts, type_named, type_by, specified, specifier, members_of, members_as, constants_of, derivations, derivations_of, parameter_types, first_place, int_value_of, leave};
ghost use Rattle.hs_expressions.specs.Operations.{value_of};
ghost use Rattle.hs_typer.specs.Specifiers.{no_specifiers};
ghost use Rattle.hs_typer.specs.Steps.{Steps};
ghost use Rattle.hs_operand_types.specs.Operands.{view_operand};
ghost use Rattle.hs_syntax.specs.RowViews.{view_left, view_member, view_constant, view_parameter, expressions_from, lefts_from, members_from, constants_from, declarators_from, parameters_from};
ghost use Rattle.hs_syntax.specs.Views.{view, view_type, view_specifier, view_declarator, view_direct, specification_of};
ghost use Rattle.hs_tree.specs.Views.{view_right};

use crate::operations::{
    arrow_operand, assignment_of, binary_operand, call_operand, cast_operand, comma_operand,
    conditional_operand, element, is_arrow, load, member_operand, postfix_of, prefix_object,
    prefix_value, size_operand, size_type, takes_object,
};
use crate::primaries::{character_of, named, number_of, string_of};
use hs_operand_types::Operand;
use hs_syntax::{
    Constant, Declarator, Direct, Expr, Left, Member, Parameter, Specifier, TypeName,
    first_of_specifiers,
};
use hs_tokens::Place;
use hs_tree::Rvalue;
use hs_typer::{
    Derivation, Members, Specifiers, TypeError, Typer, begun_enumeration, completed_enumeration,
    completed_struct, enumeration_type, enumerator, formed, int_of, length_of, list_of, next_bits,
    next_of, next_place, opened_struct, parameter, place_of, pushed, pushed_copy, struct_type,
    tagged_enumeration, tagged_struct, with_member, with_pointers, with_typedef, word_of,
};
use hs_types::{Constants, Enumerator, TypeId};
use std::alloc::Global;

/// What an expression is before it is used (X3.159-1989 3.3): a value, an object or a function. Its operands are typed first, from the
/// left; what is refused first is refused.
///
/// Example: `x` of an `int` variable is an object, `x + 1` a value of type `int`.
#[cycle(typed)]
#[tactic(auto, using(hs_syntax::specs::RowLaws::expressions_seen, hs_syntax::specs::RowLaws::lefts_seen, hs_syntax::specs::RowLaws::boxed_type_seen))]
pub fn expression(alloc: Global, typer: &mut Typer, e: &Expr) -> Result<Operand, TypeError>
    ensures { Steps view_operand typer.new (typed (view e.now) typer.old) result }
{
    match e {
        Expr::Name(word) => named(alloc, &typer.names, word),
        Expr::Number(word) => number_of(alloc, word),
        Expr::Character(word) => character_of(alloc, word),
        Expr::Strings(first, others) => string_of(alloc, typer, first, others),
        Expr::Parens { inner, .. } => expression(alloc, typer, inner),
        Expr::Index { base, at, index } => {
            let left = value(alloc, typer, base)?;
            let right = value(alloc, typer, index)?;
            element(alloc, &typer.types, *at, left, right)
        }
        Expr::Call { callee, arguments } => {
            let callee = expression(alloc, typer, callee)?;
            let arguments = values(alloc, typer, arguments)?;
            call_operand(alloc, typer, callee, arguments)
        }
        Expr::Member {
            base,
            access,
            at,
            name,
        } => {
            if is_arrow(*access) {
                let pointer = value(alloc, typer, base)?;
                arrow_operand(alloc, &typer.types, *at, name.text.items(), pointer)
            } else {
                let operand = expression(alloc, typer, base)?;
                member_operand(alloc, &typer.types, *at, name.text.items(), operand)
            }
        }
        Expr::Postfix {
            operand,
            operator,
            at,
        } => {
            let operand = expression(alloc, typer, operand)?;
            postfix_of(alloc, &typer.types, *operator, *at, operand)
        }
        Expr::Prefix {
            operator,
            at,
            operand,
        } => {
            if takes_object(*operator) {
                let operand = expression(alloc, typer, operand)?;
                prefix_object(alloc, typer, *operator, *at, operand)
            } else {
                let operand = value(alloc, typer, operand)?;
                prefix_value(alloc, &typer.types, *operator, *at, operand)
            }
        }
        Expr::SizeofValue { at, operand } => {
            let counts = typer.counts;
            typer.counts = false;
            let operand = expression(alloc, typer, operand)?;
            typer.counts = counts;
            size_operand(alloc, &typer.types, *at, operand)
        }
        Expr::SizeofType { at, type_name } => {
            let counts = typer.counts;
            typer.counts = false;
            let id = type_named(alloc, typer, *at, type_name)?;
            typer.counts = counts;
            size_type(alloc, &typer.types, *at, id)
        }
        Expr::Cast {
            at,
            type_name,
            operand,
        } => {
            let id = type_named(alloc, typer, *at, type_name)?;
            let operand = value(alloc, typer, operand)?;
            cast_operand(alloc, &typer.types, *at, id, operand)
        }
        Expr::Binary {
            left,
            operator,
            at,
            right,
        } => {
            let left = value(alloc, typer, left)?;
            let right = value(alloc, typer, right)?;
            binary_operand(alloc, &typer.types, *operator, *at, left, right)
        }
        Expr::Conditional {
            test,
            at,
            then,
            otherwise,
        } => {
            let test = value(alloc, typer, test)?;
            let then = value(alloc, typer, then)?;
            let otherwise = value(alloc, typer, otherwise)?;
            conditional_operand(alloc, &typer.types, *at, test, then, otherwise)
        }
        Expr::Assign {
            target,
            operator,
            at,
            value: right,
        } => {
            let operand = expression(alloc, typer, target)?;
            let right = value(alloc, typer, right)?;
            assignment_of(alloc, &typer.types, *operator, *at, operand, right)
        }
        Expr::Comma { lefts: its, right } => {
            let at = e.position();
            let lefts = lefts(alloc, typer, its)?;
            let right = value(alloc, typer, right)?;
            Ok(comma_operand(alloc, at, lefts, right)?)
        }
    }
}

/// The value of an expression (3.2.2.1): an array as the address of its first element, any other object as what is stored in it.
///
/// Example: of a `char` array it is a `char *`.
#[cycle(typed)]
pub fn value(alloc: Global, typer: &mut Typer, e: &Expr) -> Result<Box<Rvalue>, TypeError>
    ensures { Steps (λ it. view_right it.value) typer.new (value_of (typed (view e.now)) typer.old) result }
{
    let operand = expression(alloc, typer, e)?;
    load(alloc, typer, operand)
}

/// The values of expressions with commas between them.
#[cycle(typed)]
fn values(alloc: Global, typer: &mut Typer, its: &[Expr]) -> Result<Vec<Rvalue>, TypeError>
    ensures { Steps (λ done. map view_right done.items) typer.new (typed_all [] (expressions_from (map view its.now)) typer.old) result }
{
    let Ok(mut done) = Vec::with_capacity(alloc, its.len()) else {
        return Err(TypeError::NoMemory);
    };
    'its: for it in its {
        let made = value(alloc, typer, it)?;
        done = pushed(done, made)?;
    }
    Ok(done)
}

/// The values of the left operands of commas.
#[cycle(typed)]
fn lefts(alloc: Global, typer: &mut Typer, its: &[Left]) -> Result<Vec<Rvalue>, TypeError>
    ensures { Steps (λ done. map view_right done.items) typer.new (typed_lefts [] (lefts_from (map view_left its.now)) typer.old) result }
{
    let Ok(mut done) = Vec::with_capacity(alloc, its.len()) else {
        return Err(TypeError::NoMemory);
    };
    'its: for it in its {
        let made = value(alloc, typer, &it.operand)?;
        done = pushed(done, made)?;
    }
    Ok(done)
}

/// Returns the place of the first specifier, or the other place if there are no specifiers.
fn first_place(other: Place, its: &[Specifier]) -> Place
    ensures { result ≡ first_place other (specification_of its.now) }
{
    match first_of_specifiers(its) {
        Some(first) => first,
        None => other,
    }
}

/// A type name (3.5.5).
#[cycle(typed)]
fn type_named(
    alloc: Global,
    typer: &mut Typer,
    at: Place,
    it: &TypeName,
) -> Result<TypeId, TypeError>
    ensures { Steps (λ id. id) typer.new (type_named at (view_type it.now) typer.old) result }
{
    let first = first_place(at, &it.specifiers);
    let id = type_specified(alloc, typer, first, &it.specifiers)?;
    let derivations = derivations(alloc, typer, first, &it.declarator)?;
    let at = place_of(first, &it.declarator);
    formed(&mut typer.types, at, &derivations, id)
}

/// The type that a list of specifiers without a storage word names.
#[cycle(typed)]
fn type_specified(
    alloc: Global,
    typer: &mut Typer,
    first: Place,
    its: &[Specifier],
) -> Result<TypeId, TypeError>
    ensures { Steps (λ id. id) typer.new (type_by first (specified false first no_specifiers (specification_of its.now)) typer.old) result }
{
    let done = specifiers(alloc, typer, false, first, its)?;
    done.type_from(first)
}

/// What a list of specifiers says (3.5.1 to 3.5.3). A storage word may be among them if it is stored; the first of them is at that place.
/// The bodies of structs and enumerations are typed, and their tags and constants declared in the innermost scope.
///
/// Example: of `static unsigned char`, the storage word and two words of a basic type.
#[cycle(typed)]
pub fn specifiers(
    alloc: Global,
    typer: &mut Typer,
    stored: bool,
    first: Place,
    its: &[Specifier],
) -> Result<Specifiers, TypeError>
    ensures { Steps (λ done. done) typer.new (specified stored first no_specifiers (specification_of its.now) typer.old) result }
{
    let mut done = Specifiers::new();
    'its: for it in its {
        done = specifier(alloc, typer, stored, first, done, it)?;
    }
    Ok(done)
}

/// What the specifiers say with one more.
#[cycle(typed)]
#[tactic(auto, using(hs_syntax::specs::RowLaws::members_seen, hs_syntax::specs::RowLaws::constants_seen))]
fn specifier(
    alloc: Global,
    typer: &mut Typer,
    stored: bool,
    first: Place,
    done: Specifiers,
    it: &Specifier,
) -> Result<Specifiers, TypeError>
    ensures { Steps (λ next. next) typer.new (specifier stored first done (view_specifier it.now) typer.old) result }
{
    match it {
        Specifier::Storage(word, at) => done.with_storage(stored, *word, *at),
        Specifier::Dropped(_, _) => Ok(done),
        Specifier::Basic(word, _) => Ok(done.with_basic(*word)),
        Specifier::Named(word) => with_typedef(alloc, &typer.names, word, done),
        Specifier::StructTag { tag, .. } => {
            let number = tagged_struct(alloc, typer, tag)?;
            let id = struct_type(typer, number)?;
            Ok(done.with_type(id))
        }
        Specifier::Struct {
            at,
            tag,
            brace,
            members,
            ..
        } => {
            let number = opened_struct(alloc, typer, tag.as_ref())?;
            let its = all_members(alloc, typer, *at, members)?;
            completed_struct(alloc, typer, first, tag.as_ref(), *brace, number, its)?;
            let id = struct_type(typer, number)?;
            Ok(done.with_type(id))
        }
        Specifier::EnumTag { tag, .. } => {
            let number = tagged_enumeration(alloc, &typer.tags, tag)?;
            let id = enumeration_type(typer, number)?;
            Ok(done.with_type(id))
        }
        Specifier::Enum {
            tag,
            brace,
            constants,
            ..
        } => {
            let number = begun_enumeration(alloc, typer, tag.as_ref())?;
            let its = all_constants(alloc, typer, constants)?;
            let its = Constants::from_vec(its);
            completed_enumeration(alloc, typer, first, tag.as_ref(), *brace, number, its)?;
            let id = enumeration_type(typer, number)?;
            Ok(done.with_type(id))
        }
    }
}

/// The members of a struct (3.5.2.1).
#[cycle(typed)]
#[tactic(auto, using(hs_syntax::specs::RowLaws::declarators_seen))]
fn all_members(
    alloc: Global,
    typer: &mut Typer,
    at: Place,
    its: &[Member],
) -> Result<Members, TypeError>
    ensures { Steps (λ done. done) typer.new (members_of at [] (members_from (map view_member its.now)) typer.old) result }
{
    let mut done = Members::new(alloc);
    'its: for it in its {
        let first = first_place(at, &it.specifiers);
        let id = type_specified(alloc, typer, first, &it.specifiers)?;
        done = with_members(alloc, typer, first, id, done, &it.declarators)?;
    }
    Ok(done)
}

/// The members, and those that these declarators declare.
#[cycle(typed)]
fn with_members(
    alloc: Global,
    typer: &mut Typer,
    first: Place,
    id: TypeId,
    done: Members,
    its: &[Declarator],
) -> Result<Members, TypeError>
    ensures { Steps (λ all. all) typer.new (members_as first id done (declarators_from (map view_declarator its.now)) typer.old) result }
{
    let mut all = done;
    'its: for it in its {
        let derivations = derivations(alloc, typer, first, it)?;
        all = with_member(
            alloc,
            &mut typer.types,
            first,
            all,
            id,
            &derivations,
            word_of(it),
        )?;
    }
    Ok(all)
}

/// The constants of an enumeration (3.5.2.2).
#[cycle(typed)]
fn all_constants(
    alloc: Global,
    typer: &mut Typer,
    its: &[Constant],
) -> Result<Vec<Enumerator>, TypeError>
    ensures { Steps (λ done. done.items) typer.new
        (constants_of [] (Some 0) (constants_from (map view_constant its.now)) typer.old) result }
{
    let mut done = Vec::new(alloc);
    let mut next = Some(0);
    'its: for it in its {
        match it {
            Constant::Plain(word) => {
                done = enumerator(alloc, typer, done, word, next)?;
                next = next_of(next);
            }
            Constant::Valued { name, value: e } => {
                let bits = constant(alloc, typer, e)?;
                done = enumerator(alloc, typer, done, name, Some(bits))?;
                next = next_bits(bits);
            }
        }
    }
    Ok(done)
}

/// The value of an enumeration constant.
#[cycle(typed)]
fn constant(alloc: Global, typer: &mut Typer, e: &Expr) -> Result<u32, TypeError>
    ensures { Steps (λ bits. bits) typer.new (int_value_of (typed (view e.now)) typer.old) result }
{
    let e = value(alloc, typer, e)?;
    int_of(&typer.types, &e)
}

/// What a declarator derives (3.5.4), in the order of the text. What has no place of its own is refused at that place. Parameters are
/// declared in a scope of their own, which is kept if the typer keeps it.
///
/// Example: of `*a[3]`, an array of 3 and then a pointer.
#[cycle(typed)]
pub fn derivations(
    alloc: Global,
    typer: &mut Typer,
    at: Place,
    it: &Declarator,
) -> Result<Vec<Derivation>, TypeError>
    ensures { Steps (λ its. its.items) typer.new (derivations at (view_declarator it.now) typer.old) result }
{
    let its = derivations_of(alloc, typer, at, &it.direct)?;
    Ok(with_pointers(its, &it.pointers)?)
}

/// What follows the pointers of a declarator derives.
#[cycle(typed)]
#[tactic(auto, using(hs_syntax::specs::RowLaws::parameters_seen))]
fn derivations_of(
    alloc: Global,
    typer: &mut Typer,
    at: Place,
    it: &Direct,
) -> Result<Vec<Derivation>, TypeError>
    ensures { Steps (λ its. its.items) typer.new (derivations_of at (view_direct it.now) typer.old) result }
{
    match it {
        Direct::Empty | Direct::Name(_) => Ok(Vec::new(alloc)),
        Direct::Parens(inner) => derivations(alloc, typer, at, inner),
        Direct::Array(base) => {
            let its = derivations_of(alloc, typer, at, base)?;
            Ok(pushed_copy(its, Derivation::OpenArray)?)
        }
        Direct::Sized { base, length } => {
            let its = derivations_of(alloc, typer, at, base)?;
            let length = value(alloc, typer, length)?;
            let length = length_of(&typer.types, &length)?;
            Ok(pushed_copy(its, Derivation::Array(length))?)
        }
        Direct::Function { base, parameters } => {
            let its = derivations_of(alloc, typer, at, base)?;
            let kept = typer.keeps;
            typer.keeps = false;
            typer.names.enter()?;
            typer.tags.enter()?;
            let ids = parameter_types(alloc, typer, at, parameters)?;
            leave_unless(typer, kept);
            let list = list_of(typer, &ids)?;
            Ok(pushed_copy(its, Derivation::Function(list))?)
        }
        Direct::FunctionOfVoid { base, .. } => {
            let its = derivations_of(alloc, typer, at, base)?;
            let list = list_of(typer, &[])?;
            Ok(pushed_copy(its, Derivation::Function(list))?)
        }
    }
}

/// Ends the scope of a list of parameters, unless it is kept.
fn leave_unless(typer: &mut Typer, kept: bool)
    ensures { typer.new ≡ (if kept then typer.old else leave typer.old) }
{
    if !kept {
        typer.names.leave();
        typer.tags.leave();
    }
}

/// The types of parameters (3.5.4.3), which are declared in the innermost scope.
#[cycle(typed)]
fn parameter_types(
    alloc: Global,
    typer: &mut Typer,
    at: Place,
    its: &[Parameter],
) -> Result<Vec<TypeId>, TypeError>
    ensures { Steps (λ ids. ids.items) typer.new (parameter_types at 0 [] (parameters_from (map view_parameter its.now)) typer.old) result }
{
    let Ok(mut done) = Vec::with_capacity(alloc, its.len()) else {
        return Err(TypeError::NoMemory);
    };
    let mut place = 0u32;
    'its: for it in its {
        let first = first_place(at, &it.specifiers);
        let base = type_specified(alloc, typer, first, &it.specifiers)?;
        let derivations = derivations(alloc, typer, first, &it.declarator)?;
        let id = parameter(
            alloc,
            typer,
            first,
            &derivations,
            base,
            &it.declarator,
            place,
        )?;
        done = pushed_copy(done, id)?;
        place = next_place(place)?;
    }
    Ok(done)
}
