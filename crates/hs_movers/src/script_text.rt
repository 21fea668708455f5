//! Reads and prints the text of a script. `specs/ScriptTexts.antt` has the form.

ghost use Rattle.std.specs.Prelude.{◌≡◌, ◌==◌, ◌<◌, ◌++◌, replicate, count_by, IfOk, OnOk, Ok};
ghost use Rattle.hs_movers.specs.Movers.{no_block};
ghost use Rattle.hs_movers.specs.ScriptTexts.{IsPrintable, IsScriptOf, added, nothing, reading, text_of};
ghost use Rattle.hs_movers.specs.declared.script_text.ScriptError.TheVariants.{NoMemory as no_memory};

use crate::still::no_block;
use crate::{Decisions, Script};
use hs_base::NoMemory;
use hs_heap::Decision;
use std::alloc::Global;
use std::marker::Model;

mod line;
mod numbers;
mod printer;

use line::{Item, item_of};
use printer::{print_decisions, print_seed};

/// Why a text is no script.
#[derive(Clone, Copy, Debug, PartialEq, Eq)]
pub enum ScriptError {
    /// The number, from 1, of the first line that has none of the forms, or comes too late.
    BadScript(u32),
    /// Memory ran out.
    NoMemory,
}

impl From<NoMemory> for ScriptError {
    ghost from_gives = { λ _ e. e ≡ no_memory };

    fn from(_refused: NoMemory) -> ScriptError {
        ScriptError::NoMemory
    }
}

/// What the lines read so far come to.
#[derive(Drop)]
struct Gathered {
    seed: u64,
    decisions: Vec<Decision>,
    /// Whether one of the lines was not empty.
    begun: bool,
}

impl Model for Gathered {
    ghost use Rattle.hs_movers.specs.ScriptTexts.{Read};

    ghost Value = { Read };

    ghost view = { λ g. record { script = record { seed = g.seed; decisions = g.decisions.items }; begun = g.begun } };
}

/// Adds as many decisions that name no block as are missing.
fn fill(alloc: Global, decisions: &mut Vec<Decision>, missing: usize) -> Result<(), NoMemory>
    ensures { OnOk result (decisions.new.items ≡ decisions.old.items ++ replicate missing no_block) }
{
    'missing: for _added in 0..missing {
        decisions.push(no_block(alloc))?;
    }
    Ok(())
}

impl Gathered {
    /// What no lines come to.
    fn new(alloc: Global) -> Gathered
        ensures { result ≡ nothing }
    {
        Gathered {
            seed: 0,
            decisions: Vec::new(alloc),
            begun: false,
        }
    }

    /// What the lines come to with one line more, unless it comes too late.
    fn with_item(mut self, alloc: Global, item: Item) -> Result<Option<Gathered>, NoMemory>
        ensures { IfOk result (λ gathered. gathered ≡ added self item) }
    {
        match item {
            Item::Nothing => {}
            Item::Seed(seed) => {
                if self.begun {
                    return Ok(None);
                }
                self.seed = seed;
                self.begun = true;
            }
            Item::Numbered(number, decision) => {
                let number = number as usize;
                if self.decisions.len() >= number {
                    return Ok(None);
                }
                let missing = number - self.decisions.len() - 1;
                fill(alloc, &mut self.decisions, missing)?;
                self.decisions.push(decision)?;
                self.begun = true;
            }
        }
        Ok(Some(self))
    }

    /// The script of the lines.
    fn into_script(self) -> Script
        ensures { result ≡ self.script }
    {
        Script {
            seed: self.seed,
            decisions: Decisions::from_vec(self.decisions),
        }
    }
}

/// Reads the text of a script: lines with the number of a decision and the blocks that it moves and purges.
///
/// Example: `2: move 1` is a script of two decisions, of which the first names no block.
///
/// # Errors
///
/// `BadScript` if a line has none of the forms, or comes too late: the first such line. `NoMemory` if memory runs out.
pub fn read_script(alloc: Global, text: &[u8]) -> Result<Script, ScriptError>
    requires lines { count_by (λ byte. byte == 10) text.now < 4294967295 }
    ensures { IsScriptOf text.now result }
{
    let mut gathered = Gathered::new(alloc);
    let mut number = 0;
    'lines: for line in text.split(|byte| *byte == b'\n') {
        number += 1;
        let Some(item) = item_of(alloc, line)? else {
            return Err(ScriptError::BadScript(number));
        };
        let Some(more) = gathered.with_item(alloc, item)? else {
            return Err(ScriptError::BadScript(number));
        };
        gathered = more;
    }
    Ok(gathered.into_script())
}

/// Prints a script, with a line for every decision. What is printed is read back as the same script.
///
/// Example: two decisions, of which the second moves block 1, are the lines `1: none` and `2: move 1`.
///
/// # Errors
///
/// `NoMemory` if memory runs out.
#[tactic(auto, using(crate::proofs::Printed::read_back))]
pub fn print_script(alloc: Global, script: &Script) -> Result<Vec<u8>, NoMemory>
    requires printable { IsPrintable script.now }
    ensures text { IfOk result (λ text. text.items ≡ text_of script.now) }
    ensures read_back { IfOk result (λ text. reading text.items ≡ Ok script.now) }
{
    let mut text = Vec::new(alloc);
    print_seed(&mut text, script.seed)?;
    print_decisions(&mut text, script.decisions.items())?;
    Ok(text)
}
