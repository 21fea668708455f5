//! Prints a run.

ghost use Rattle.std.specs.Prelude.{◌≡◌, ◌++◌, codes, IfOk, Ok, OnOk};
ghost use Rattle.std.specs.Fmt.{decimal};
ghost use Rattle.hs_movers.specs.ScriptTexts.{IsPrintable, reading, text_of as script_text};
ghost use Rattle.hs_run_text.specs.RunTexts.{ending_of, line, place_of, text_of, word_of};

use hs_base::{NoMemory, Pos};
use hs_meaning::{Outcome, Stop};
use hs_movers::{Script, print_script};
use itoa::Buffer;
use std::alloc::Global;

/// The word of a stop.
fn word(why: Stop) -> &'static str
    ensures { result.now ≡ word_of why }
{
    match why {
        Stop::Nil => "Nil",
        Stop::Disposed => "Disposed",
        Stop::Purged => "Purged",
        Stop::Old => "Old",
        Stop::Stale => "Stale",
        Stop::Range => "Range",
        Stop::Gone => "Gone",
        Stop::Undefined => "Undefined",
        Stop::BadLoad => "BadLoad",
        Stop::BadPointer => "BadPointer",
        Stop::BadHandle => "BadHandle",
        Stop::BadByte => "BadByte",
        Stop::Divide => "Divide",
        Stop::Frames => "Frames",
    }
}

/// Writes a text and its line feed.
fn print_line(text: &mut Vec<u8>, its: &[u8]) -> Result<(), NoMemory>
    ensures { OnOk result (text.new.items ≡ text.old.items ++ line its.now) }
{
    text.extend_from_slice(its)?;
    text.push(b'\n')?;
    Ok(())
}

/// A place, by the name of its file.
fn place(alloc: Global, file: &[u8], pos: Pos) -> Result<Vec<u8>, NoMemory>
    ensures { IfOk result (λ text. text.items ≡ place_of file.now pos) }
{
    let mut text = file.to_vec(alloc)?;
    text.push(b':')?;
    text.extend_from_slice(Buffer::new().format(pos.line).as_bytes())?;
    text.push(b':')?;
    text.extend_from_slice(Buffer::new().format(pos.col).as_bytes())?;
    Ok(text)
}

/// A stop and its place.
fn stopped(alloc: Global, file: &[u8], why: Stop, pos: Pos) -> Result<Vec<u8>, NoMemory>
    ensures { IfOk result (λ text. text.items ≡ codes "stopped " ++ word_of why ++ codes " at " ++ place_of file.now pos) }
{
    let at = place(alloc, file, pos)?;
    let mut text = b"stopped ".to_vec(alloc)?;
    text.extend_from_slice(word(why).as_bytes())?;
    text.extend_from_slice(b" at ")?;
    text.extend_from_slice(at.as_slice())?;
    Ok(text)
}

/// How a run ended.
fn ending(alloc: Global, file: &[u8], outcome: Outcome) -> Result<Vec<u8>, NoMemory>
    ensures { IfOk result (λ text. text.items ≡ ending_of file.now outcome) }
{
    match outcome {
        Outcome::Finished(number) => {
            let mut text = b"finished ".to_vec(alloc)?;
            text.extend_from_slice(Buffer::new().format(number).as_bytes())?;
            Ok(text)
        }
        Outcome::Stopped(why, pos) => stopped(alloc, file, why, pos),
        Outcome::TurnsSpent => Ok(b"spent".to_vec(alloc)?),
    }
}

/// The line of what a run put out, without the bytes.
fn output_line(alloc: Global, count: usize) -> Result<Vec<u8>, NoMemory>
    ensures { IfOk result (λ text. text.items ≡ line (codes "output " ++ decimal count)) }
{
    let mut text = b"output ".to_vec(alloc)?;
    text.extend_from_slice(Buffer::new().format(count).as_bytes())?;
    text.push(b'\n')?;
    Ok(text)
}

/// The line of how a run ended.
fn outcome_line(alloc: Global, file: &[u8], outcome: Outcome) -> Result<Vec<u8>, NoMemory>
    ensures { IfOk result (λ text. text.items ≡ line (codes "outcome " ++ ending_of file.now outcome)) }
{
    let ending = ending(alloc, file, outcome)?;
    let mut text = b"outcome ".to_vec(alloc)?;
    text.extend_from_slice(ending.as_slice())?;
    text.push(b'\n')?;
    Ok(text)
}

/// Prints a run: how many bytes it put out and the bytes, how it ended, and its script, which can be read back. `file` is the name of the file in which it was stopped;
/// where it was not stopped, any name will do.
///
/// # Errors
///
/// `NoMemory` if memory runs out.
pub fn print_run(
    alloc: Global,
    output: &[u8],
    file: &[u8],
    outcome: Outcome,
    script: &Script,
) -> Result<Vec<u8>, NoMemory>
    requires printable { IsPrintable script.now }
    ensures text { IfOk result (λ text. text.items ≡ text_of output.now file.now outcome script.now) }
    ensures reads_back { OnOk result (reading (script_text script.now) ≡ Ok script.now) }
{
    let outcome = outcome_line(alloc, file, outcome)?;
    let script = print_script(alloc, script)?;
    let mut text = output_line(alloc, output.len())?;
    print_line(&mut text, output)?;
    text.extend_from_slice(outcome.as_slice())?;
    print_line(&mut text, b"script")?;
    text.extend_from_slice(script.as_slice())?;
    print_line(&mut text, b"end")?;
    Ok(text)
}
