//! Reads the text of an input. `specs/InputTexts.antt` has the form.

ghost use Rattle.std.specs.Prelude.{◌≡◌, ◌==◌, ◌<◌, count_by, IfOk};
ghost use Rattle.hs_meaning.specs.declared.input_text.InputError.TheVariants.{NoMemory as no_memory};
ghost use Rattle.hs_meaning.specs.InputTexts.{added, nothing, IsInputOf};

use crate::{Input, Words};
use hs_base::{Bytes, NoMemory, Numbers};
use std::alloc::Global;
use std::marker::Model;

mod digits;
mod line;

use line::{Item, item_of};

/// Why a text is no input.
#[derive(Clone, Copy, Debug, PartialEq, Eq)]
pub enum InputError {
    /// The number, from 1, of the first line that has none of the forms.
    BadInput(u32),
    /// Memory ran out.
    NoMemory,
}

impl From<NoMemory> for InputError {
    ghost from_gives = { λ _ e. e ≡ no_memory };

    fn from(_refused: NoMemory) -> InputError {
        InputError::NoMemory
    }
}

/// What the lines read so far come to.
#[derive(Drop)]
struct Gathered {
    bytes: Vec<u8>,
    words: Vec<u32>,
    refused: Vec<u32>,
}

impl Model for Gathered {
    ghost use Rattle.hs_meaning.specs.declared.input.Input.{Input};

    ghost Value = { Input };

    ghost view = { λ g. record { bytes = g.bytes.items; words = g.words.items; refused = g.refused.items } };
}

impl Gathered {
    /// What no lines come to.
    fn new(alloc: Global) -> Gathered
        ensures { result ≡ nothing }
    {
        Gathered {
            bytes: Vec::new(alloc),
            words: Vec::new(alloc),
            refused: Vec::new(alloc),
        }
    }

    /// What the lines come to with one line more.
    fn with_item(mut self, item: Item) -> Result<Gathered, NoMemory>
        ensures { IfOk result (λ gathered. gathered ≡ added self item) }
    {
        match item {
            Item::Nothing => {}
            Item::Bytes(bytes) => self.bytes.extend_from_slice(bytes.items())?,
            Item::Word(word) => self.words.push(word)?,
            Item::Refused(number) => self.refused.push(number)?,
        }
        Ok(self)
    }

    /// The input of the lines.
    fn into_input(self) -> Input
        ensures { result ≡ self }
    {
        Input {
            bytes: Bytes::from_vec(self.bytes),
            words: Words::from_vec(self.words),
            refused: Numbers::from_vec(self.refused),
        }
    }
}

/// Reads the text of an input: lines with `bytes` and hexadecimal digits, `word` and a number, or `refuse` and a
/// number.
///
/// Example: `word -1`, a line feed and `bytes 4142` are an input with the one word 4294967295 and the bytes 65 and 66.
///
/// # Errors
///
/// `BadInput` if a line has none of the forms: the first such line. `NoMemory` if memory runs out.
pub fn read_input(alloc: Global, text: &[u8]) -> Result<Input, InputError>
    requires lines { count_by (λ byte. byte == 10) text.now < 4294967295 }
    ensures { IsInputOf text.now result }
{
    let mut gathered = Gathered::new(alloc);
    let mut number = 0;
    'lines: for line in text.split(|byte| *byte == b'\n') {
        number += 1;
        let Some(item) = item_of(alloc, line)? else {
            return Err(InputError::BadInput(number));
        };
        gathered = gathered.with_item(item)?;
    }
    Ok(gathered.into_input())
}
