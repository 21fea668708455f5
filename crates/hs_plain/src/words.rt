//! Answer words. Past their end each is 0.

ghost use Rattle.std.specs.Prelude.{◌≡◌, length, map, slice_index, take, IfOk};
ghost use Rattle.hs_heap.specs.declared.cell.Cell.TheVariants.{Byte};
ghost use Rattle.hs_meaning.specs.Plain.{answers, bytes_of_words, later_words, next_word, one_word_less, words_for};
ghost use Rattle.hs_meaning.specs.Values.{bytes_of};
ghost use Rattle.hs_state.specs.Machines.{Keeps, machine_of};

use hs_base::NoMemory;
use hs_heap::Cell;
use hs_state::Machine;
use std::alloc::Global;

/// The answer word at that place.
fn word_at(words: &[u32], place: usize) -> u32
    ensures { result ≡ slice_index words.now place }
{
    words.get(place).copied().unwrap_or(0)
}

/// The bytes of a word, the highest first.
fn cells_of(word: u32) -> [Cell; 4]
    ensures { result ≡ map Byte (bytes_of 4 word) }
{
    let [a, b, c, d] = word.to_be_bytes();
    [Cell::Byte(a), Cell::Byte(b), Cell::Byte(c), Cell::Byte(d)]
}

/// How many words it takes to fill so many bytes.
pub(crate) fn words_for(size: usize) -> usize
    ensures { result ≡ words_for size }
{
    size.div_ceil(4)
}

/// So many cells, filled with the bytes of the next answer words. Of the last word there are as many bytes as fit.
pub(crate) fn filling(alloc: Global, words: &[u32], size: usize) -> Result<Vec<Cell>, NoMemory>
    ensures cells { IfOk result (λ its. its.items ≡ map Byte (take size (bytes_of_words (answers (words_for size) words.now)))) }
    ensures all { IfOk result (λ its. length its.items ≡ size) }
{
    let mut cells = Vec::new(alloc);
    'words: for place in 0..words_for(size) {
        cells.extend_from_slice(&cells_of(word_at(words, place)))?;
    }
    cells.truncate(size);
    Ok(cells)
}

/// The words after so many.
pub(crate) fn later(words: &[u32], count: usize) -> &[u32]
    ensures { result.now ≡ later_words count words.now }
{
    &words[count.min(words.len())..]
}

/// Takes the next answer word.
pub(crate) fn next(machine: &mut Machine) -> u32
    ensures word { result ≡ next_word machine.old.words.now }
    ensures taken { machine_of machine.new ≡ one_word_less (machine_of machine.old) }
    ensures keeps { Keeps machine.old machine.new }
{
    let word = word_at(machine.words, 0);
    machine.words = later(machine.words, 1);
    word
}
