//! The graph of a program. `specs/Routes.antt` has its nodes and steps.

ghost use Rattle.std.specs.Prelude.{◌≡◌, ◌<◌, ◌≤◌, ◌++◌, ◌+◌, ℕ, true, [], Some, IfOk, OnOk, length, slice_get};
ghost use Rattle.hs_chains.specs.Answering.{given_by};
ghost use Rattle.hs_effects.specs.Calling.{whole_of};
ghost use Rattle.hs_flow.specs.Programs.{IsNumbered, IsTableFor, next_in, slots_at};
ghost use Rattle.hs_must.specs.Answers.{names_in};
ghost use Rattle.hs_taint.specs.Coding.{numbers};
ghost use Rattle.hs_taint.specs.Sizes.{most_values};
ghost use Rattle.hs_taint.specs.Points.{count_of, is_there};
ghost use Rattle.hs_chains.specs.Chains.{first_fact};
ghost use Rattle.hs_code.specs.Following.{successors_of};
ghost use Rattle.hs_code.specs.declared.op.Op.TheVariants as op;
ghost use Rattle.hs_taint.specs.Routes.{cases_of, is_callee, targets_of};
ghost use Rattle.hs_taint.specs.Stepping.{AreNames};

use crate::coding::{code_of, fact_of};
use crate::facts::{called, exit_of, following, is_return, put_facts};
use crate::known::Known;
use crate::nodes::Call;
use crate::operations::Operations;
use hs_base::NoMemory;
use hs_code::{Case, Code, Placed};
use hs_effects::EffectTable;
use hs_flow::{Fact, FactStatus, Facts, Slot, enter, leave};
use hs_must::Must;
use hs_search::{Graph, Node};
use hs_tree::Variable;
use std::alloc::Global;
use std::cell::Cell;

/// A program with the tables that answer what is known in it.
#[derive(Drop)]
pub(crate) struct ProgramGraph<'a> {
    pub alloc: Global,
    pub code: &'a Code<'a>,
    pub effects: &'a EffectTable,
    pub must: &'a Must,
    pub operations: Operations<'a>,
    /// The handle names of each function.
    pub names: Vec<Vec<Variable>>,
    /// How many facts a step may give.
    pub room: usize,
    /// A buffer for the facts of a step, between steps.
    pub buffer: Cell<Option<Buffer>>,
    pub ghost functions_are: { operations.functions.now ≡ code.now.functions.items },
    pub ghost names_are: { AreNames (whole_of code.now) names.items },
    pub ghost all_named: { length names.items ≡ length code.now.functions.items },
    pub ghost few_names: { (f : ℕ) → length (names_in (whole_of code.now) f) ≤ 64 },
    pub ghost numbered: { (f : ℕ) → IsNumbered (whole_of code.now) f },
    pub ghost tables: { (f : ℕ) → f < length code.now.functions.items → IsTableFor (whole_of code.now) effects.now f },
    pub ghost starts: { is_there code.now.functions.items code.now.program.now.main 0 ≡ true },
    pub ghost deep: { most_values 0 code.now.functions.items < numbers },
    pub ghost has_room: { (f at : ℕ)
        → 4 + slots_at (whole_of code.now) f (given_by (whole_of code.now) effects.now must.now f at) ≤ room },
}

/// A buffer of facts that waits for the next step.
#[derive(Drop)]
pub(crate) struct Buffer {
    facts: Facts,
    room: usize,
    ghost right: { facts.room ≡ room },
}

/// An operation with what is known there.
#[derive(Clone, Copy)]
pub(crate) struct Here<'a> {
    pub known: Known<'a>,
    pub its: Placed,
}

impl<'a> ProgramGraph<'a> {
    ghost use Rattle.hs_taint.specs.Flowing.{known_in, site_in, whole_in};
    ghost use Rattle.hs_taint.specs.Knowing.{given_at};
    ghost use Rattle.hs_taint.specs.Routes.{enters_by, leaves_by, left_by, nodes_each, site_of};

    /// The operation of that number.
    fn here(&self, number: u32) -> Here<'_>
        requires within { number < count_of self.now.code.now.functions.items }
        ensures site { site_of (whole_in self.now) number ≡ Some (site_in result) }
        ensures code { result.known.code.now ≡ self.now.code.now }
        ensures effects { result.known.effects.now ≡ self.now.effects.now }
        ensures must { result.known.must.now ≡ self.now.must.now }
        ensures there { result.known.function < length self.now.code.now.functions.items }
        ensures next_is_number { result.known.at < 4294967295 }
    {
        let at = self.operations.at(number);
        let own = &self.code.functions[at.function as usize];
        let its = own.ops.items()[at.at as usize];
        let known = Known {
            code: self.code,
            effects: self.effects,
            must: self.must,
            names: &self.names[at.function as usize],
            function: at.function,
            at: at.at,
            places: its.places,
        };
        Here { known, its }
    }

    /// An empty buffer for the facts of a step: the one that waits, if it has room enough.
    fn lend(&self) -> Result<Facts, NoMemory>
        ensures empty { IfOk result (λ it. it.facts ≡ []) }
        ensures room { IfOk result (λ it. it.room ≡ self.now.room) }
    {
        match self.buffer.replace(None) {
            Some(buffer) if buffer.room == self.room => {
                let mut facts = buffer.facts;
                facts.clear();
                Ok(facts)
            }
            _ => Facts::new(self.alloc, self.room),
        }
    }

    /// Keeps a buffer for the next step.
    fn keep(&self, facts: Facts)
        requires room { facts.room ≡ self.now.room }
    {
        self.buffer.set(Some(Buffer {
            facts,
            room: self.room,
        }));
    }

    /// Puts the nodes of the facts at the operations that follow one.
    fn put_steps(
        &self,
        here: Here,
        entered: u64,
        facts: &[Fact],
        into: &mut Vec<Node>,
    ) -> Result<(), NoMemory>
        requires code { here.known.code.now ≡ self.now.code.now }
        requires next_is_number { here.known.at < 4294967295 }
        ensures { OnOk result (into.new.items ≡ into.old.items
            ++ nodes_each (whole_in self.now) here.entry.known.function entered facts.now
            (targets_of (successors_of here.entry.its.op here.entry.known.at) (cases_of (slice_get self.now.code.now.functions.items here.entry.known.function)))) }
    {
        let call = Call {
            operations: &self.operations,
            function: here.known.function,
            entered,
        };
        let its = following(here.its.op, here.known.at);
        call.put_each(facts, its, self.cases(here.known.function), into)
    }

    /// The cases of a function, if it is there.
    fn cases(&self, function: u32) -> &[Case]
        ensures { result.now ≡ cases_of (slice_get self.now.code.now.functions.items function) }
    {
        match self.code.functions.get(function as usize) {
            Some(code) => code.cases.items(),
            None => &[],
        }
    }

    /// The first node of a call of the function, if it has an operation and the fact enters it.
    fn entered(&self, here: Here, function: u32, fact: Fact) -> Option<Node>
        requires code { here.known.code.now ≡ self.now.code.now }
        requires effects { here.known.effects.now ≡ self.now.effects.now }
        requires must { here.known.must.now ≡ self.now.must.now }
        ensures { result ≡ enters_by (whole_in self.now) (known_in self.now) (Some function) here.entry.known.function here.entry.known.at fact }
    {
        if !self.operations.has(function, 0) {
            return None;
        }
        let code = code_of(enter(self.code, function, fact, &here.known)?);
        Some(Node {
            at: self.operations.start(function),
            fact: code,
            entered: code,
        })
    }

    /// The node after a call, if the second operation is a return of the function that the first one calls.
    fn left(&self, c: Here, s: Here, caller: Node, last: Node) -> Option<Node>
        requires caller_code { c.known.code.now ≡ self.now.code.now }
        requires caller_effects { c.known.effects.now ≡ self.now.effects.now }
        requires caller_must { c.known.must.now ≡ self.now.must.now }
        requires last_code { s.known.code.now ≡ self.now.code.now }
        requires last_effects { s.known.effects.now ≡ self.now.effects.now }
        requires last_must { s.known.must.now ≡ self.now.must.now }
        requires last_there { s.known.function < length self.now.code.now.functions.items }
        requires next_is_number { c.known.at < 4294967295 }
        ensures { result ≡ leaves_by (whole_in self.now) (known_in self.now) (site_in c.entry) (site_in s.entry) caller last }
    {
        let call = Call {
            operations: &self.operations,
            function: c.known.function,
            entered: caller.entered,
        };
        let function = s.known.function;
        let next = c.known.at + 1;
        if !calls(called(c.its.op), function) || !is_return(s.its.op) || !call.has(next) {
            return None;
        }
        match self.left_fact(c, s, fact_of(caller.fact), fact_of(last.fact)) {
            Some(fact) => Some(call.node(next, fact)),
            None => None,
        }
    }

    /// The fact after a call, if the function returns with the other fact.
    fn left_fact(&self, c: Here, s: Here, caller: Fact, last: Fact) -> Option<Fact>
        requires caller_code { c.known.code.now ≡ self.now.code.now }
        requires caller_effects { c.known.effects.now ≡ self.now.effects.now }
        requires caller_must { c.known.must.now ≡ self.now.must.now }
        requires last_code { s.known.code.now ≡ self.now.code.now }
        requires last_effects { s.known.effects.now ≡ self.now.effects.now }
        requires last_must { s.known.must.now ≡ self.now.must.now }
        requires last_there { s.known.function < length self.now.code.now.functions.items }
        ensures { result ≡ left_by (whole_in self.now) (known_in self.now) s.entry.known.function c.entry.known.function c.entry.known.at caller
            (next_in (whole_in self.now) s.entry.known.function ((known_in self.now).at s.entry.known.function s.entry.known.at) op.Return last) }
    {
        match exit_of(s.known.places, last) {
            Some(exit) => leave(
                self.code,
                s.known.function,
                self.effects,
                caller,
                exit,
                &c.known,
            ),
            None => None,
        }
    }
}

/// Whether the function that is called is that one.
fn calls(called: Option<u32>, function: u32) -> bool
    ensures { result ≡ is_callee called function }
{
    match called {
        Some(it) => it == function,
        None => false,
    }
}

/// The fact with which every chain begins: control is at the start of the program.
fn first_fact() -> Fact
    ensures { result ≡ first_fact }
{
    Fact {
        slot: Slot::Nothing,
        status: FactStatus::Reached,
    }
}

impl<'a> Graph for ProgramGraph<'a> {
    ghost use Rattle.hs_taint.specs.Flowing.{flow_in, is_framed};

    ghost flow = { flow_in };

    ghost framed = { is_framed };

    fn count(&self) -> u32
        ensures { result ≡ (flow_in self.now).count }
    {
        self.operations.count()
    }

    fn start(&self) -> Node
        ensures { result ≡ (flow_in self.now).start }
    {
        let fact = code_of(first_fact());
        Node {
            at: self.operations.start(self.code.program.main),
            fact,
            entered: fact,
        }
    }

    fn steps(&self, from: Node, into: &mut Vec<Node>) -> Result<(), NoMemory>
        requires within { from.at < (flow_in self.now).count }
        ensures { OnOk result (into.new.items ≡ into.old.items ++ (flow_in self.now).steps from) }
    {
        let here = self.here(from.at);
        let mut facts = self.lend()?;
        put_facts(&here.known, here.its.op, fact_of(from.fact), &mut facts);
        self.put_steps(here, from.entered, facts.all(), into)?;
        self.keep(facts);
        Ok(())
    }

    fn enters(&self, from: Node) -> Option<Node>
        requires within { from.at < (flow_in self.now).count }
        ensures { result ≡ (flow_in self.now).enters from }
    {
        let here = self.here(from.at);
        match called(here.its.op) {
            Some(function) => self.entered(here, function, fact_of(from.fact)),
            None => None,
        }
    }

    fn ends(&self, at: Node) -> bool
        requires within { at.at < (flow_in self.now).count }
        ensures { result ≡ (flow_in self.now).ends at }
    {
        is_return(self.here(at.at).its.op)
    }

    fn leaves(&self, caller: Node, last: Node) -> Option<Node>
        requires caller_within { caller.at < (flow_in self.now).count }
        requires last_within { last.at < (flow_in self.now).count }
        ensures { result ≡ (flow_in self.now).leaves caller last }
    {
        self.left(self.here(caller.at), self.here(last.at), caller, last)
    }
}
