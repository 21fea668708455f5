//! Commands, and why words may not be one.

use std::alloc::AllocError;

/// What the words ask for.
#[derive(Drop)]
pub enum Command {
    /// A check of the named files.
    Check(Vec<String>),
    /// A run of the program that the named files are.
    Run(RunWords),
}

/// What a run is asked to be.
#[derive(Drop)]
pub struct RunWords {
    /// The name of the table's file: `table.toml`, unless `--table` names another.
    pub table: String,
    /// The number of the mover that `--mover` names: 0 for `still` or if none is named, 1 for `slide`, 2 for `script`, 3 for `seeded`.
    pub mover: u8,
    /// The name of the script's file, if `--script` names one.
    pub script: Option<String>,
    /// The name of the input's file, if `--input` names one.
    pub input: Option<String>,
    /// How many turns the run has: 1000000, unless `--turns` gives another number, of at most ten digits.
    pub turns: u64,
    /// The names of the sources.
    pub names: Vec<String>,
}

/// Why the words ask for nothing.
#[derive(Clone, Copy)]
pub enum WordsError {
    /// The first word is no command, or the command refuses the words, or a number word is no number in its range. A request for help
    /// is refused too.
    Usage,
    /// Memory was refused.
    NoMemory,
}

impl From<AllocError> for WordsError {
    ghost use Rattle.std.specs.Prelude.{◌≡◌};
    ghost use Rattle.hs_words.specs.declared.command.WordsError.TheVariants.{NoMemory};

    ghost from_gives = { λ _ error. error ≡ NoMemory };

    fn from(_error: AllocError) -> WordsError {
        WordsError::NoMemory
    }
}
