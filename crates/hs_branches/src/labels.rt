//! The labels of a switch (X3.159-1989 3.6.1 and 3.6.4.2).

ghost use Rattle.std.specs.Prelude.{◌≡◌, [], map, nat_eq, IfOk};
ghost use Rattle.std.specs.List.{list_any};
ghost use Rattle.hs_linkage.specs.Works.{Works};
ghost use Rattle.hs_branches.specs.Branches.{no_cases, cases_of, case_bits, new_case, case_of, labelled, all_labelled};
ghost use Rattle.hs_syntax.specs.Views.{view, view_label};
ghost use Rattle.hs_typer.specs.Steps.{Gives};
ghost use Rattle.indexmap.specs.IndexSet.{insert_key};

use crate::conditions::valued;
use hs_base::NoMemory;
use hs_constants::Value;
use hs_linkage::Translator;
use hs_operand_types::{constant_value, number_kind};
use hs_syntax::{Expr, Label as Syntax};
use hs_tokens::Place;
use hs_tree::Label;
use hs_typer::{TypeError, pushed_copy};
use hs_types::{Integer, TypeId, Types};
use indexmap::IndexSet;
use std::alloc::Global;
use std::marker::Model;

/// The constants of a switch. Contracts see the list.
#[derive(Drop)]
pub struct CaseValues {
    set: IndexSet<u32>,
}

impl Model for CaseValues {
    ghost use Rattle.std.specs.Prelude.{List, ℕ};

    ghost Value = { List ℕ };

    ghost view = { λ it. it.set.keys };
}

impl CaseValues {
    /// None. Takes no memory.
    fn new(alloc: Global) -> CaseValues
        ensures { result ≡ [] }
    {
        CaseValues {
            set: IndexSet::new(alloc),
        }
    }

    /// Whether the constant is one of them.
    fn has(&self, bits: u32) -> bool
        ensures { result ≡ list_any (nat_eq bits) self.now }
    {
        self.set.contains(&bits)
    }

    /// With one more.
    fn with(self, bits: u32) -> Result<CaseValues, NoMemory>
        ensures { IfOk result (λ its. its ≡ insert_key nat_eq self bits) }
    {
        let mut set = self.set;
        set.insert(bits)?;
        Ok(CaseValues { set })
    }
}

/// The labels of a switch so far. There is no kind where no label may be.
#[derive(Drop)]
pub struct Cases {
    /// How the numbers of its controlling expression are represented.
    pub kind: Option<Integer>,
    /// The constants of its `case` labels.
    pub values: CaseValues,
    /// Whether there is a `default`.
    pub default: bool,
}

impl Cases {
    /// No labels may be here.
    ///
    /// Example: in the body of a loop.
    pub fn none(alloc: Global) -> Cases
        ensures { result ≡ no_cases }
    {
        Cases {
            kind: None,
            values: CaseValues::new(alloc),
            default: false,
        }
    }

    /// The labels of a switch over that type, before any.
    ///
    /// Example: its kind is `Integer::Int` for the type `int`.
    pub fn of(alloc: Global, types: &Types, id: TypeId) -> Cases
        ensures { result ≡ cases_of types.now id }
    {
        Cases {
            kind: number_kind(types, id),
            values: CaseValues::new(alloc),
            default: false,
        }
    }
}

/// The number of a `case`, converted to the type of the controlling expression.
fn case_bits(at: Place, kind: Integer, value: Option<Value>) -> Result<u32, TypeError>
    ensures { Gives (λ it. it) (case_bits at kind value) result }
{
    match value {
        Some(value) => {
            if value.fails {
                Err(TypeError::Untyped(at))
            } else {
                Ok(kind.converted(value.bits))
            }
        }
        None => Err(TypeError::Untyped(at)),
    }
}

/// `case e:` of a switch over numbers of that kind.
fn case_of(
    alloc: Global,
    m: &mut Translator,
    at: Place,
    e: &Expr,
    cases: Cases,
    kind: Integer,
) -> Result<(Label, Cases), TypeError>
    ensures { Works (λ p. p) m.new (case_of at (view e.now) cases kind m.old) result }
{
    let value = valued(alloc, m, e)?;
    let bits = case_bits(at, kind, constant_value(&m.typer.types, &value))?;
    if cases.values.has(bits) {
        return Err(TypeError::Untyped(at));
    }
    let values = cases.values.with(bits)?;
    Ok((Label::Case { at, bits }, Cases { values, ..cases }))
}

/// One label. Refused at itself if it may not be here, or is there already.
fn labelled(
    alloc: Global,
    m: &mut Translator,
    cases: Cases,
    it: &Syntax,
) -> Result<(Label, Cases), TypeError>
    ensures { Works (λ p. p) m.new (labelled cases (view_label it.now) m.old) result }
{
    match it {
        Syntax::Case { at, value } => match cases.kind {
            Some(kind) => case_of(alloc, m, *at, value, cases, kind),
            None => Err(TypeError::Untyped(*at)),
        },
        Syntax::Default(at) => {
            if cases.kind.is_none() || cases.default {
                return Err(TypeError::Untyped(*at));
            }
            Ok((
                Label::Default(*at),
                Cases {
                    default: true,
                    ..cases
                },
            ))
        }
    }
}

/// The labels in front of a statement, and the labels of its switch with them. Refused as `Untyped` at a label that may not be here, or is
/// there already, or whose constant is no integral constant expression.
///
/// Example: two labels for `case 1: default: ;`.
pub fn all_labelled(
    alloc: Global,
    m: &mut Translator,
    cases: Cases,
    its: &[Syntax],
) -> Result<(Vec<Label>, Cases), TypeError>
    ensures { Works (λ p. (p.0.items, p.1)) m.new (all_labelled [] cases (map view_label its.now) m.old) result }
{
    let mut done = Vec::new(alloc);
    let mut left = cases;
    'its: for it in its {
        let (label, next) = labelled(alloc, m, left, it)?;
        left = next;
        done = pushed_copy(done, label)?;
    }
    Ok((done, left))
}
