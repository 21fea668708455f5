//! Nodes of the graph of a program.

ghost use Rattle.std.specs.Prelude.{◌≡◌, ◌<◌, ◌≤◌, ◌++◌, ◌+◌, true, OnOk, length, map};
ghost use Rattle.hs_taint.specs.Nodes.{each_in, node_in, nodes_in};
ghost use Rattle.hs_taint.specs.Points.{count_of, is_there, start_of};
ghost use Rattle.hs_taint.specs.Routes.{cases_in, listed, target_of, targets_of};

use crate::coding::code_of;
use crate::operations::Operations;
use hs_base::NoMemory;
use hs_code::{Case, Successors};
use hs_flow::Fact;
use hs_search::Node;

/// What the nodes of a step have in common: a function, and the code of the fact with which its call was entered.
#[derive(Clone, Copy)]
pub(crate) struct Call<'a> {
    pub operations: &'a Operations<'a>,
    pub function: u32,
    pub entered: u64,
}

impl<'a> Call<'a> {
    /// Whether the function has that operation.
    pub(crate) fn has(&self, at: u32) -> bool
        ensures { result ≡ is_there self.now.operations.now.functions.now self.now.function at }
    {
        self.operations.has(self.function, at)
    }

    /// The node of a fact at an operation of the function.
    pub(crate) fn node(&self, at: u32, fact: Fact) -> Node
        requires there { is_there self.now.operations.now.functions.now self.now.function at ≡ true }
        ensures { result ≡ node_in self.now.operations.now.functions.now self.now.function self.now.entered at fact }
    {
        Node {
            at: self.operations.start(self.function) + at,
            fact: code_of(fact),
            entered: self.entered,
        }
    }

    /// Puts the nodes of the facts at an operation, if it is there, after those of the list.
    fn put_at(&self, facts: &[Fact], at: u32, into: &mut Vec<Node>) -> Result<(), NoMemory>
        ensures { OnOk result (into.new.items ≡ into.old.items
            ++ nodes_in self.now.operations.now.functions.now self.now.function self.now.entered facts.now at) }
    {
        if self.has(at) {
            self.put_facts(facts, at, into)?;
        }
        Ok(())
    }

    /// Puts the nodes of the facts at an operation that is there.
    fn put_facts(&self, facts: &[Fact], at: u32, into: &mut Vec<Node>) -> Result<(), NoMemory>
        requires there { is_there self.now.operations.now.functions.now self.now.function at ≡ true }
        ensures { OnOk result (into.new.items ≡ into.old.items
            ++ map (node_in self.now.operations.now.functions.now self.now.function self.now.entered at) facts.now) }
    {
        'facts: for fact in facts {
            into.push(self.node(at, *fact))?;
        }
        Ok(())
    }

    /// Puts the nodes at one operation or none.
    fn put_if(&self, facts: &[Fact], at: Option<u32>, into: &mut Vec<Node>) -> Result<(), NoMemory>
        ensures { OnOk result (into.new.items ≡ into.old.items
            ++ each_in self.now.operations.now.functions.now self.now.function self.now.entered facts.now (listed at)) }
    {
        match at {
            Some(at) => self.put_at(facts, at, into),
            None => Ok(()),
        }
    }

    /// Puts the nodes at the targets of the cases.
    fn put_cases(
        &self,
        facts: &[Fact],
        cases: &[Case],
        into: &mut Vec<Node>,
    ) -> Result<(), NoMemory>
        ensures { OnOk result (into.new.items ≡ into.old.items
            ++ each_in self.now.operations.now.functions.now self.now.function self.now.entered facts.now (map target_of cases.now)) }
    {
        'cases: for case in cases {
            self.put_at(facts, case.target, into)?;
        }
        Ok(())
    }

    /// Puts the nodes of the facts at the operations that an answer names.
    pub(crate) fn put_each(
        &self,
        facts: &[Fact],
        its: Successors,
        cases: &[Case],
        into: &mut Vec<Node>,
    ) -> Result<(), NoMemory>
        ensures { OnOk result (into.new.items ≡ into.old.items
            ++ each_in self.now.operations.now.functions.now self.now.function self.now.entered facts.now (targets_of its cases.now)) }
    {
        self.put_if(facts, its.next, into)?;
        self.put_if(facts, its.jump, into)?;
        let (first, end) = its.cases;
        self.put_cases(facts, part(cases, first as usize, end as usize), into)
    }
}

/// The cases from one place up to another.
fn part(cases: &[Case], first: usize, end: usize) -> &[Case]
    ensures { result.now ≡ cases_in cases.now first end }
{
    let end = end.min(cases.len());
    if first < end { &cases[first..end] } else { &[] }
}
