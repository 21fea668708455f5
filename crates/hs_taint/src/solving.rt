//! The facts that chains reach in a program. `specs/Solving.antt` says what the answers mean.

ghost use Rattle.std.specs.Prelude.{◌≡◌, ◌≤◌, ℕ, length};
ghost use Rattle.hs_effects.specs.Answers as effects_right;
ghost use Rattle.hs_effects.specs.Calling.{whole_of};
ghost use Rattle.hs_must.specs.Answers as must_right;
ghost use Rattle.hs_must.specs.Answers.{HasMany};
ghost use Rattle.hs_rows.specs.Sets.{width};
ghost use Rattle.hs_taint.specs.Flowing.{known_in, whole_in};
ghost use Rattle.hs_taint.specs.Solving.{Finds, Solves};

use crate::building::program_graph;
use crate::graph::ProgramGraph;
use crate::hazard_list::has_long;
use crate::reached::Reached;
use crate::taint_end::TaintEnd;
use hs_base::LimitKind;
use hs_code::Code;
use hs_effects::EffectTable;
use hs_must::Must;
use hs_search::{SearchEnd, search};
use std::alloc::Global;

/// The pairs in which the chains of a graph end.
fn reached_in(alloc: Global, graph: ProgramGraph) -> Result<Reached, SearchEnd>
    ensures { Finds (whole_in graph.entry) (known_in graph.entry) result }
{
    let found = search(alloc, &graph, 4_000_000, 1_000_000)?;
    Ok(Reached {
        found,
        starts: graph.operations.starts,
    })
}

/// Finds the facts that chains reach in a program, and how long a shortest chain to each is, from the effects and the must facts of its functions.
///
/// A chain is a list of steps: a fact before an operation, then a fact before one that follows it. It begins at the start of `main`, enters the
/// functions that are called, and returns from each call to the operation after that call.
///
/// Example: in `h = NewHandle(4); p = *h; NewHandle(8); *p = 1;` a chain reaches the store with the fact that its pointer is stale.
///
/// # Errors
///
/// `Limit` with the limit `Pairs` exactly if chains reach more than 4000000 pairs, and with the limit `PathSteps` exactly if they do not, and each
/// chain to some hazard has more than 1000000 steps. `NoMemory` if memory runs out.
pub fn solve(
    alloc: Global,
    code: &Code,
    effects: &EffectTable,
    must: &Must,
) -> Result<Reached, TaintEnd>
    requires functions { effects.now.effects.count ≡ length code.now.functions.items }
    requires assigned { effects.now.assigned.count ≡ length code.now.functions.items }
    requires globals { length code.now.program.now.globals ≤ width effects.now.assigned }
    requires effects { effects_right.IsExact (whole_of code.now) effects.now }
    requires must { must_right.IsExact (whole_of code.now) must.now }
    requires few { (f : ℕ) → HasMany (whole_of code.now) f → ⊥ }
    ensures { Solves (whole_of code.now) result }
{
    let graph = program_graph(alloc, code, effects, must)?;
    let reached = match reached_in(alloc, graph) {
        Ok(reached) => reached,
        Err(SearchEnd::Limit) => return Err(TaintEnd::Limit(LimitKind::Pairs.passed())),
        Err(SearchEnd::NoMemory) => return Err(TaintEnd::NoMemory),
    };
    if has_long(code, &reached)? {
        return Err(TaintEnd::Limit(LimitKind::PathSteps.passed()));
    }
    Ok(reached)
}
