//! Prints the lines of a script. Beside the text, each function says that the numbers are in the range of their type: with that the text is read
//! back.

ghost use Rattle.std.specs.Prelude.{◌≡◌, ◌<◌, ◌^◌, ◌++◌, ◌∷◌, [], codes, OnOk};
ghost use Rattle.std.specs.Fmt.{decimal};
ghost use Rattle.std.specs.List.{All as Each};
ghost use Rattle.hs_movers.specs.ScriptRanges.{AllInRange, InRange, IsInRange};
ghost use Rattle.hs_movers.specs.ScriptTexts.{decision_line, decision_lines, joined, or_none, part_text, seed_line};

use hs_base::NoMemory;
use hs_heap::{Decision, Which};
use itoa::Buffer;

/// Writes the line of the seed, if it is not 0.
pub(super) fn print_seed(text: &mut Vec<u8>, seed: u64) -> Result<(), NoMemory>
    ensures text { OnOk result (text.new.items ≡ text.old.items ++ seed_line seed) }
    ensures small { seed < 2 ^ 64 }
{
    if seed == 0 {
        return Ok(());
    }
    text.extend_from_slice(b"seed ")?;
    text.extend_from_slice(Buffer::new().format(seed).as_bytes())?;
    text.push(b'\n')?;
    Ok(())
}

/// Writes numbers with commas between them.
fn print_numbers(text: &mut Vec<u8>, numbers: &[u32]) -> Result<(), NoMemory>
    ensures text { OnOk result (text.new.items ≡ text.old.items ++ joined numbers.now) }
    ensures small { Each (λ number. number < 4294967296) numbers.now }
{
    let Some((first, rest)) = numbers.split_first() else {
        return Ok(());
    };
    let mut buffer = Buffer::new();
    text.extend_from_slice(buffer.format(*first).as_bytes())?;
    for number in rest {
        text.push(b',')?;
        text.extend_from_slice(buffer.format(*number).as_bytes())?;
    }
    Ok(())
}

/// Writes the word in front of blocks.
fn print_word(text: &mut Vec<u8>, word: &[u8]) -> Result<(), NoMemory>
    ensures { OnOk result (text.new.items ≡ text.old.items ++ (32 ∷ word.now ++ 32 ∷ [])) }
{
    text.push(b' ')?;
    text.extend_from_slice(word)?;
    text.push(b' ')?;
    Ok(())
}

/// Writes the blocks that are moved, or those that are purged, after their word. If no block is named, nothing is written.
fn print_part(text: &mut Vec<u8>, word: &[u8], which: &Which) -> Result<(), NoMemory>
    ensures text { OnOk result (text.new.items ≡ text.old.items ++ part_text word.now which.now) }
    ensures small { OnOk result (InRange which.now) }
{
    match which {
        Which::All => {
            print_word(text, word)?;
            text.extend_from_slice(b"all")?;
        }
        Which::These(numbers) => {
            if !numbers.items().is_empty() {
                print_word(text, word)?;
                print_numbers(text, numbers.items())?;
            }
        }
    }
    Ok(())
}

/// Writes what a decision names, or that it names nothing.
fn print_parts(text: &mut Vec<u8>, decision: &Decision) -> Result<(), NoMemory>
    ensures text { OnOk result (text.new.items
        ≡ text.old.items
        ++ or_none (part_text (codes "move") decision.now.moves ++ part_text (codes "purge") decision.now.purges)) }
    ensures small { OnOk result (IsInRange decision.now) }
{
    let before = text.len();
    print_part(text, b"move", &decision.moves)?;
    print_part(text, b"purge", &decision.purges)?;
    if text.len() == before {
        text.extend_from_slice(b" none")?;
    }
    Ok(())
}

/// Writes the line of a decision.
fn print_decision(text: &mut Vec<u8>, number: usize, decision: &Decision) -> Result<(), NoMemory>
    ensures text { OnOk result (text.new.items ≡ text.old.items ++ decision_line number decision.now) }
    ensures small { OnOk result (IsInRange decision.now) }
{
    text.extend_from_slice(Buffer::new().format(number).as_bytes())?;
    text.push(b':')?;
    print_parts(text, decision)?;
    text.push(b'\n')?;
    Ok(())
}

/// Writes the lines of the decisions, which are numbered from 1.
pub(super) fn print_decisions(text: &mut Vec<u8>, decisions: &[Decision]) -> Result<(), NoMemory>
    ensures text { OnOk result (text.new.items ≡ text.old.items ++ decision_lines 1 decisions.now) }
    ensures small { OnOk result (AllInRange decisions.now) }
{
    for (index, decision) in decisions.iter().enumerate() {
        print_decision(text, index + 1, decision)?;
    }
    Ok(())
}
