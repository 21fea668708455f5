//! Everything that the program does, from the words to the line that is written.

ghost use Rattle.std.specs.Prelude.{◌≡◌, map, option_map, List, ℕ, Ok, Some};
ghost use Rattle.std.specs.String.{string_bytes};
ghost use Rattle.hs_base.specs.Files.{NeverFall};
ghost use Rattle.hs_base.specs.Reads.{Makes, MadeReads};
ghost use Rattle.hs_words.specs.Words.{IsCheck, IsCommand, IsRun, asked_of};
ghost use Rattle.hs_command.specs.Causes.{Headline, HasCauses};
ghost use Rattle.hs_command.specs.Movers.{Telling, first_of};
ghost use Rattle.hs_report.specs.Texts.{text_of};
ghost use Rattle.hs_command.specs.Report.{IsPutAs, IsPutReport};
ghost use Rattle.hs_command.specs.Runs.{IsAnswered, IsPutRun};
ghost use Rattle.hs_command.specs.Words.{IsNoCommand};

use crate::judge::judge;
use crate::running::run_named;
use hs_base::{Files, Sink};
use hs_decl_parser::units_are_unambiguous;
use hs_meaning::straight::safe_without_stale_uses;
use hs_movers::Mover;
use hs_report::{Report, RunReport, Status, no_memory_line, usage_line};
use hs_words::{Command, RunWords, WordsError, command_of};
use std::alloc::Global;

/// Puts the text. The answer is the status, or Unwritten if the put failed.
fn put<O: Sink>(out: &mut O, text: &[u8], status: Status) -> Status
    ensures { IsPutAs text.now status (record { bytes = O.written out.old; faults = O.faults out.old }) (record { bytes = O.written out.new; faults = O.faults out.new }) result }
{
    match out.put(text) {
        Ok(()) => status,
        Err(_) => Status::Unwritten,
    }
}

/// Says that there is no memory, if there was none for the words or the movers.
pub fn refuse_memory<O: Sink>(out: &mut O) -> Status
    ensures { IsPutAs (text_of Report.NoMemory) Status.NoMemory (record { bytes = O.written out.old; faults = O.faults out.old })
        (record { bytes = O.written out.new; faults = O.faults out.new }) result }
{
    put(out, no_memory_line().as_bytes(), Status::NoMemory)
}

/// Puts the line of a report.
fn put_report<O: Sink>(alloc: Global, out: &mut O, report: &Report) -> Status
    ensures { IsPutReport report.now (record { bytes = O.written out.old; faults = O.faults out.old })
        (record { bytes = O.written out.new; faults = O.faults out.new }) result }
{
    match report.text(alloc) {
        Ok(text) => put(out, text.as_slice(), report.status()),
        Err(_) => put(out, no_memory_line().as_bytes(), Status::NoMemory),
    }
}

/// Puts the text of the report of a run.
fn put_run<O: Sink>(alloc: Global, out: &mut O, report: &RunReport) -> Status
    ensures { IsPutRun report.now (record { bytes = O.written out.old; faults = O.faults out.old })
        (record { bytes = O.written out.new; faults = O.faults out.new }) result }
{
    match report.text(alloc) {
        Ok(text) => put(out, text.as_slice(), report.status()),
        Err(_) => put(out, no_memory_line().as_bytes(), Status::NoMemory),
    }
}

/// The first mover of that number.
fn chosen(movers: Vec<Box<dyn Mover>>, wanted: u8) -> Option<Box<dyn Mover>>
    ensures { option_map (λ it. record { number = number it; told = told it; after = after it }) result
        ≡ first_of wanted (map (λ it. record { number = number it; told = told it; after = after it }) movers.items) }
{
    'movers: for mover in movers {
        if mover.tag() == wanted {
            return Some(mover);
        }
    }
    None
}

/// Judges the named files, and puts the line of the report.
fn check_named<F: Files, O: Sink>(
    alloc: Global,
    names: &[String],
    files: &mut F,
    out: &mut O,
) -> Status
    ensures listing_stays { F.listing files.new ≡ F.listing files.old }
    ensures counts_stay_up { NeverFall (F.counts files.old) (F.counts files.new) }
    ensures answered { (words : List (List ℕ)) (movers : List Telling) → IsCheck words (map string_bytes names.now)
        → MadeReads (Makes F.leads_to F.listing F.counts) files.old files.new (λ reads. IsAnswered (record {
          told = F.listing files.old;
          words = words;
          movers = movers;
          reads = reads;
          before = F.counts files.old;
          now = F.counts files.new;
          old = record { bytes = O.written out.old; faults = O.faults out.old };
          new = record { bytes = O.written out.new; faults = O.faults out.new };
        }) result) }
{
    let report = judge(alloc, files, names);
    put_report(alloc, out, &report)
}

/// Runs what the words name with that mover, and puts the text of the report.
fn run_chosen<F: Files, O: Sink>(
    alloc: Global,
    asked: &RunWords,
    files: &mut F,
    out: &mut O,
    mover: &mut Box<dyn Mover>,
) -> Status
    ensures listing_stays { F.listing files.new ≡ F.listing files.old }
    ensures counts_stay_up { NeverFall (F.counts files.old) (F.counts files.new) }
    ensures answered { (words : List (List ℕ)) (movers : List Telling) → IsRun words (asked_of asked.now)
        → first_of asked.now.mover movers ≡ Some (record { number = number mover.old; told = told mover.old; after = after mover.old })
        → MadeReads (Makes F.leads_to F.listing F.counts) files.old files.new (λ reads. IsAnswered (record {
          told = F.listing files.old;
          words = words;
          movers = movers;
          reads = reads;
          before = F.counts files.old;
          now = F.counts files.new;
          old = record { bytes = O.written out.old; faults = O.faults out.old };
          new = record { bytes = O.written out.new; faults = O.faults out.new };
        }) result) }
{
    let report = run_named(alloc, files, asked, mover);
    put_run(alloc, out, &report)
}

/// Does what a command asks for: judges the files that it names, or runs them, and puts the text of the report.
fn obey<F: Files, O: Sink>(
    alloc: Global,
    command: &Command,
    files: &mut F,
    out: &mut O,
    movers: Vec<Box<dyn Mover>>,
) -> Status
    ensures listing_stays { F.listing files.new ≡ F.listing files.old }
    ensures counts_stay_up { NeverFall (F.counts files.old) (F.counts files.new) }
    ensures answered { (words : List (List ℕ)) → IsCommand words (Ok command.now) → MadeReads (Makes F.leads_to F.listing F.counts) files.old files.new (λ reads. IsAnswered (record {
      told = F.listing files.old;
      words = words;
      movers = map (λ it. record { number = number it; told = told it; after = after it }) movers.items;
      reads = reads;
      before = F.counts files.old;
      now = F.counts files.new;
      old = record { bytes = O.written out.old; faults = O.faults out.old };
      new = record { bytes = O.written out.new; faults = O.faults out.new };
    }) result) }
{
    match command {
        Command::Check(names) => check_named(alloc, names.as_slice(), files, out),
        Command::Run(asked) => match chosen(movers, asked.mover) {
            Some(mut mover) => run_chosen(alloc, asked, files, out, &mut mover),
            None => put(out, usage_line().as_bytes(), Status::Usage),
        },
    }
}

/// Says why the words ask for nothing.
fn refuse<O: Sink>(out: &mut O, error: WordsError) -> Status
    ensures usage { error ≡ WordsError.Usage → IsPutAs (text_of Report.Usage) Status.Usage (record { bytes = O.written out.old; faults = O.faults out.old })
        (record { bytes = O.written out.new; faults = O.faults out.new }) result }
    ensures memory { error ≡ WordsError.NoMemory → IsPutAs (text_of Report.NoMemory) Status.NoMemory (record { bytes = O.written out.old; faults = O.faults out.old })
        (record { bytes = O.written out.new; faults = O.faults out.new }) result }
{
    match error {
        WordsError::Usage => put(out, usage_line().as_bytes(), Status::Usage),
        WordsError::NoMemory => refuse_memory(out),
    }
}

/// The whole of a call: the words, and what they ask for.
fn answer<F: Files, O: Sink>(
    alloc: Global,
    words: &[String],
    files: &mut F,
    out: &mut O,
    movers: Vec<Box<dyn Mover>>,
) -> Status
    ensures listing_stays { F.listing files.new ≡ F.listing files.old }
    ensures counts_stay_up { NeverFall (F.counts files.old) (F.counts files.new) }
    ensures answered { MadeReads (Makes F.leads_to F.listing F.counts) files.old files.new (λ reads. IsAnswered (record {
      told = F.listing files.old;
      words = map string_bytes words.now;
      movers = map (λ it. record { number = number it; told = told it; after = after it }) movers.items;
      reads = reads;
      before = F.counts files.old;
      now = F.counts files.new;
      old = record { bytes = O.written out.old; faults = O.faults out.old };
      new = record { bytes = O.written out.new; faults = O.faults out.new };
    }) result) }
{
    match command_of(alloc, words) {
        Ok(command) => obey(alloc, &command, files, out, movers),
        Err(error) => refuse(out, error),
    }
}

/// Does all that the program does: reads the words and the files that they name, judges the files or runs them, and puts one text.
///
/// The words are those after the program's name. The movers are those that a run can be made with: `--mover` names one by its number. The one
/// that is named is changed by the run, and all are dropped at its end. The status says what the text says: `specs/Report.antt` and
/// `specs/Runs.antt` have the meaning of each, and `specs/Causes.antt` when it comes. The clauses speak of the bytes that the reads of this call
/// gave; if the files tell their listing, these are the listing's. Any status may give way to a lack of memory or to a failed write.
///
/// Example: in the folder `examples/straight`, the words `check` and `locked.c` write `accepted` and return `Status::Done`.
pub fn run<F: Files, O: Sink>(
    alloc: Global,
    words: &[String],
    files: &mut F,
    out: &mut O,
    movers: Vec<Box<dyn Mover>>,
) -> Status
    ensures listing_stays { F.listing files.new ≡ F.listing files.old }
    ensures counts_stay_up { NeverFall (F.counts files.old) (F.counts files.new) }

    // If the words are no command, no file is read.
    ensures no_read { IsNoCommand (map string_bytes words.now) (map (λ it. record { number = number it; told = told it; after = after it }) movers.items)
        → files.new ≡ files.old }

    // The files that the words name and their headers were read, each once, in the order of its number, and no other; and a
    // report that is right was put, whole, or with Unwritten a front of it.
    ensures answered { MadeReads (Makes F.leads_to F.listing F.counts) files.old files.new (λ reads. IsAnswered (record {
      told = F.listing files.old;
      words = map string_bytes words.now;
      movers = map (λ it. record { number = number it; told = told it; after = after it }) movers.items;
      reads = reads;
      before = F.counts files.old;
      now = F.counts files.new;
      old = record { bytes = O.written out.old; faults = O.faults out.old };
      new = record { bytes = O.written out.new; faults = O.faults out.new };
    }) result) }

    // The headline: an accepted program is safe, for every input, number of turns and schedule of moves.
    ensures headline { MadeReads (Makes F.leads_to F.listing F.counts) files.old files.new (λ reads. Headline (record {
      told = F.listing files.old;
      words = map string_bytes words.now;
      movers = map (λ it. record { number = number it; told = told it; after = after it }) movers.items;
      reads = reads;
      before = F.counts files.old;
      now = F.counts files.new;
      old = record { bytes = O.written out.old; faults = O.faults out.old };
      new = record { bytes = O.written out.new; faults = O.faults out.new };
    }) result) }

    // Each status comes if its cause is, and only there.
    ensures causes { MadeReads (Makes F.leads_to F.listing F.counts) files.old files.new (λ reads. HasCauses (record {
      told = F.listing files.old;
      words = map string_bytes words.now;
      movers = map (λ it. record { number = number it; told = told it; after = after it }) movers.items;
      reads = reads;
      before = F.counts files.old;
      now = F.counts files.new;
      old = record { bytes = O.written out.old; faults = O.faults out.old };
      new = record { bytes = O.written out.new; faults = O.faults out.new };
    }) result) }
{
    safe_without_stale_uses();
    units_are_unambiguous();
    answer(alloc, words, files, out, movers)
}
