//! Spells expressions, types and declarators.

ghost use Rattle.std.specs.Prelude.{◌≡◌, List, ℕ, Bool, ◌∷◌, [], map};
ghost use Rattle.hs_spell.specs.Appends.{Appends};
ghost use Rattle.hs_syntax.specs.Grammar.{expression_form, lefts_form, arguments_form, type_form, specification_form, specifier_form, members_form, constants_form, declarator_form, declarators_form, direct_form, parameters_form};
ghost use Rattle.hs_syntax.specs.RowViews.{view_left, view_member, view_constant, view_parameter};
ghost use Rattle.hs_syntax.specs.RowViews.{expressions_from, lefts_from, members_from, constants_from};
ghost use Rattle.hs_syntax.specs.RowViews.{declarators_from, parameters_from};
ghost use Rattle.hs_syntax.specs.Views.{view, view_type, view_specifier, view_declarator, view_direct, specification_of};

use crate::pieces::{comma, identifier, keyword_at, literals, mark, mark_at, pointers, tag, word};
use hs_base::NoMemory;
use hs_syntax::{Constant, Declarator, Direct, Expr, Left, Member, Parameter, Specifier, TypeName};
use hs_tokens::{Token, TokenKind};
use std::alloc::Global;

/// Appends an expression.
#[cycle(spell_expression)]
pub(crate) fn expression(alloc: Global, tokens: &mut Vec<Token>, e: &Expr) -> Result<(), NoMemory>
    ensures { (known : List (List ℕ)) → Appends result tokens.old.items tokens.new.items
        (expression_form known (view e.now)) }
{
    match e {
        Expr::Name(it) => identifier(alloc, tokens, it),
        Expr::Number(it) => word(alloc, tokens, TokenKind::Number, it),
        Expr::Character(it) => word(alloc, tokens, TokenKind::Character, it),
        Expr::Strings(first, others) => {
            word(alloc, tokens, TokenKind::Literal, first)?;
            literals(alloc, tokens, others)
        }
        Expr::Parens { at, inner } => {
            mark_at(alloc, tokens, *at, "(")?;
            expression(alloc, tokens, inner)?;
            mark(alloc, tokens, ")")
        }
        Expr::Index { base, at, index } => {
            expression(alloc, tokens, base)?;
            mark_at(alloc, tokens, *at, "[")?;
            expression(alloc, tokens, index)?;
            mark(alloc, tokens, "]")
        }
        Expr::Call { callee, arguments } => {
            expression(alloc, tokens, callee)?;
            mark(alloc, tokens, "(")?;
            expressions(alloc, tokens, arguments)?;
            mark(alloc, tokens, ")")
        }
        Expr::Member {
            base,
            access,
            at,
            name,
        } => {
            expression(alloc, tokens, base)?;
            mark_at(alloc, tokens, *at, access.text())?;
            identifier(alloc, tokens, name)
        }
        Expr::Postfix {
            operand,
            operator,
            at,
        } => {
            expression(alloc, tokens, operand)?;
            mark_at(alloc, tokens, *at, operator.text())
        }
        Expr::Prefix {
            operator,
            at,
            operand,
        } => {
            mark_at(alloc, tokens, *at, operator.text())?;
            expression(alloc, tokens, operand)?;
            Ok(())
        }
        Expr::SizeofValue { at, operand } => {
            keyword_at(alloc, tokens, *at, "sizeof")?;
            expression(alloc, tokens, operand)?;
            Ok(())
        }
        Expr::SizeofType { at, type_name } => {
            keyword_at(alloc, tokens, *at, "sizeof")?;
            mark(alloc, tokens, "(")?;
            named_type(alloc, tokens, type_name)?;
            mark(alloc, tokens, ")")
        }
        Expr::Cast {
            at,
            type_name,
            operand,
        } => {
            mark_at(alloc, tokens, *at, "(")?;
            named_type(alloc, tokens, type_name)?;
            mark(alloc, tokens, ")")?;
            expression(alloc, tokens, operand)?;
            Ok(())
        }
        Expr::Binary {
            left,
            operator,
            at,
            right,
        } => {
            expression(alloc, tokens, left)?;
            mark_at(alloc, tokens, *at, operator.text())?;
            expression(alloc, tokens, right)?;
            Ok(())
        }
        Expr::Conditional {
            test,
            at,
            then,
            otherwise,
        } => {
            expression(alloc, tokens, test)?;
            mark_at(alloc, tokens, *at, "?")?;
            expression(alloc, tokens, then)?;
            mark(alloc, tokens, ":")?;
            expression(alloc, tokens, otherwise)?;
            Ok(())
        }
        Expr::Assign {
            target,
            operator,
            at,
            value,
        } => {
            expression(alloc, tokens, target)?;
            mark_at(alloc, tokens, *at, operator.text())?;
            expression(alloc, tokens, value)?;
            Ok(())
        }
        Expr::Comma { lefts: its, right } => {
            lefts(alloc, tokens, its)?;
            expression(alloc, tokens, right)?;
            Ok(())
        }
    }
}

/// Appends the arguments of a call.
#[cycle(spell_expression)]
fn expressions(alloc: Global, tokens: &mut Vec<Token>, its: &[Expr]) -> Result<(), NoMemory>
    ensures { (known : List (List ℕ)) → Appends result tokens.old.items tokens.new.items
        (arguments_form known (expressions_from (map view its.now))) }
{
    let mut left = its.len();
    for it in its {
        expression(alloc, tokens, it)?;
        left -= 1;
        comma(alloc, tokens, left > 0)?;
    }
    Ok(())
}

/// Appends the left operands of commas, each with its comma.
#[cycle(spell_expression)]
fn lefts(alloc: Global, tokens: &mut Vec<Token>, its: &[Left]) -> Result<(), NoMemory>
    ensures { (known : List (List ℕ)) → Appends result tokens.old.items tokens.new.items
        (lefts_form known (lefts_from (map view_left its.now))) }
{
    for it in its {
        expression(alloc, tokens, &it.operand)?;
        mark_at(alloc, tokens, it.at, ",")?;
    }
    Ok(())
}

/// Appends the name of a type.
#[cycle(spell_expression)]
fn named_type(alloc: Global, tokens: &mut Vec<Token>, it: &TypeName) -> Result<(), NoMemory>
    ensures { (known : List (List ℕ)) → Appends result tokens.old.items tokens.new.items
        (type_form known (view_type it.now)) }
{
    specifiers(alloc, tokens, &it.specifiers)?;
    declarator(alloc, tokens, &it.declarator)?;
    Ok(())
}

/// Appends declaration specifiers.
#[cycle(spell_expression)]
pub(crate) fn specifiers(
    alloc: Global,
    tokens: &mut Vec<Token>,
    its: &[Specifier],
) -> Result<(), NoMemory>
    ensures { (known : List (List ℕ)) (typed : Bool) → Appends result
        tokens.old.items tokens.new.items (specification_form known typed (specification_of its.now)) }
{
    for it in its {
        specifier(alloc, tokens, it)?;
    }
    Ok(())
}

/// Appends a declaration specifier.
#[cycle(spell_expression)]
fn specifier(alloc: Global, tokens: &mut Vec<Token>, it: &Specifier) -> Result<(), NoMemory>
    ensures { (known : List (List ℕ)) → Appends result tokens.old.items tokens.new.items
        (specifier_form known (view_specifier it.now)) }
{
    match it {
        Specifier::Storage(word, at) => keyword_at(alloc, tokens, *at, word.text()),
        Specifier::Dropped(word, at) => keyword_at(alloc, tokens, *at, word.text()),
        Specifier::Basic(word, at) => keyword_at(alloc, tokens, *at, word.text()),
        Specifier::Named(name) => identifier(alloc, tokens, name),
        Specifier::StructTag { at, tag } => {
            keyword_at(alloc, tokens, *at, "struct")?;
            identifier(alloc, tokens, tag)
        }
        Specifier::Struct {
            at,
            tag: name,
            brace,
            members: its,
        } => {
            keyword_at(alloc, tokens, *at, "struct")?;
            tag(alloc, tokens, name)?;
            mark_at(alloc, tokens, *brace, "{")?;
            members(alloc, tokens, its)?;
            mark(alloc, tokens, "}")
        }
        Specifier::EnumTag { at, tag } => {
            keyword_at(alloc, tokens, *at, "enum")?;
            identifier(alloc, tokens, tag)
        }
        Specifier::Enum {
            at,
            tag: name,
            brace,
            constants: its,
            comma: stands,
        } => {
            keyword_at(alloc, tokens, *at, "enum")?;
            tag(alloc, tokens, name)?;
            mark_at(alloc, tokens, *brace, "{")?;
            constants(alloc, tokens, its)?;
            comma(alloc, tokens, *stands)?;
            mark(alloc, tokens, "}")
        }
    }
}

/// Appends the members of a struct.
#[cycle(spell_expression)]
fn members(alloc: Global, tokens: &mut Vec<Token>, its: &[Member]) -> Result<(), NoMemory>
    ensures { (known : List (List ℕ)) → Appends result tokens.old.items tokens.new.items
        (members_form known (members_from (map view_member its.now))) }
{
    for it in its {
        specifiers(alloc, tokens, &it.specifiers)?;
        declarators(alloc, tokens, &it.declarators)?;
        mark(alloc, tokens, ";")?;
    }
    Ok(())
}

/// Appends an enumeration constant.
#[cycle(spell_expression)]
fn constant(alloc: Global, tokens: &mut Vec<Token>, it: &Constant) -> Result<(), NoMemory>
    ensures { (known : List (List ℕ)) → Appends result tokens.old.items tokens.new.items
        (constants_form known (constants_from (map view_constant (it.now ∷ [])))) }
{
    match it {
        Constant::Plain(name) => identifier(alloc, tokens, name),
        Constant::Valued { name, value } => {
            identifier(alloc, tokens, name)?;
            mark(alloc, tokens, "=")?;
            expression(alloc, tokens, value)?;
            Ok(())
        }
    }
}

/// Appends enumeration constants.
#[cycle(spell_expression)]
fn constants(alloc: Global, tokens: &mut Vec<Token>, its: &[Constant]) -> Result<(), NoMemory>
    ensures { (known : List (List ℕ)) → Appends result tokens.old.items tokens.new.items
        (constants_form known (constants_from (map view_constant its.now))) }
{
    let mut left = its.len();
    for it in its {
        constant(alloc, tokens, it)?;
        left -= 1;
        comma(alloc, tokens, left > 0)?;
    }
    Ok(())
}

/// Appends a declarator.
#[cycle(spell_expression)]
pub(crate) fn declarator(
    alloc: Global,
    tokens: &mut Vec<Token>,
    it: &Declarator,
) -> Result<(), NoMemory>
    ensures { (known : List (List ℕ)) (inner : Bool) → Appends result
        tokens.old.items tokens.new.items (declarator_form known inner (view_declarator it.now)) }
{
    pointers(alloc, tokens, &it.pointers)?;
    direct(alloc, tokens, &it.direct)?;
    Ok(())
}

/// Appends the declarators of a member.
#[cycle(spell_expression)]
fn declarators(alloc: Global, tokens: &mut Vec<Token>, its: &[Declarator]) -> Result<(), NoMemory>
    ensures { (known : List (List ℕ)) → Appends result tokens.old.items tokens.new.items
        (declarators_form known (declarators_from (map view_declarator its.now))) }
{
    let mut left = its.len();
    for it in its {
        declarator(alloc, tokens, it)?;
        left -= 1;
        comma(alloc, tokens, left > 0)?;
    }
    Ok(())
}

/// Appends what follows the pointers of a declarator.
#[cycle(spell_expression)]
fn direct(alloc: Global, tokens: &mut Vec<Token>, it: &Direct) -> Result<(), NoMemory>
    ensures { (known : List (List ℕ)) (inner : Bool) → Appends result
        tokens.old.items tokens.new.items (direct_form known inner (view_direct it.now)) }
{
    match it {
        Direct::Empty => Ok(()),
        Direct::Name(name) => identifier(alloc, tokens, name),
        Direct::Parens(inside) => {
            mark(alloc, tokens, "(")?;
            declarator(alloc, tokens, inside)?;
            mark(alloc, tokens, ")")
        }
        Direct::Array(base) => {
            direct(alloc, tokens, base)?;
            mark(alloc, tokens, "[")?;
            mark(alloc, tokens, "]")
        }
        Direct::Sized { base, length } => {
            direct(alloc, tokens, base)?;
            mark(alloc, tokens, "[")?;
            expression(alloc, tokens, length)?;
            mark(alloc, tokens, "]")
        }
        Direct::Function {
            base,
            parameters: its,
        } => {
            direct(alloc, tokens, base)?;
            mark(alloc, tokens, "(")?;
            parameters(alloc, tokens, its)?;
            mark(alloc, tokens, ")")
        }
        Direct::FunctionOfVoid { base, at } => {
            direct(alloc, tokens, base)?;
            mark(alloc, tokens, "(")?;
            keyword_at(alloc, tokens, *at, "void")?;
            mark(alloc, tokens, ")")
        }
    }
}

/// Appends parameters.
#[cycle(spell_expression)]
fn parameters(alloc: Global, tokens: &mut Vec<Token>, its: &[Parameter]) -> Result<(), NoMemory>
    ensures { (known : List (List ℕ)) → Appends result tokens.old.items tokens.new.items
        (parameters_form known (parameters_from (map view_parameter its.now))) }
{
    let mut left = its.len();
    for it in its {
        specifiers(alloc, tokens, &it.specifiers)?;
        declarator(alloc, tokens, &it.declarator)?;
        left -= 1;
        comma(alloc, tokens, left > 0)?;
    }
    Ok(())
}
