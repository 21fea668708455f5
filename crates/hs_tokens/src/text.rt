//! The texts of tokens.

ghost use Rattle.std.specs.Prelude.{◌≡◌, ◌≤◌, ◌+◌, List, ℕ, IfOk, length, take, drop};

use hs_base::Bytes;
use std::alloc::{AllocError, Global};
use std::marker::Model;
use std::rc::Rc;

/// The text of a token. The tokens of one file share its bytes, so that a copy of a token takes none. Contracts see the
/// bytes of the text alone.
#[derive(Drop)]
pub struct Text {
    /// The bytes that hold the text.
    bytes: Rc<Bytes>,
    /// How many of them are in front of the text.
    start: u32,
    /// How many are the text.
    len: u32,
}

impl Model for Text {
    ghost Value = { List ℕ };

    ghost view = { λ t. take t.len (drop t.start t.bytes.value) };

    ghost invariant = { λ t. t.start + t.len ≤ length t.bytes.value };
}

/// The number in 32 bits. One that does not fit counts as out of memory: no text of a file is that long.
fn narrowed(number: usize) -> Result<u32, AllocError>
    ensures { IfOk result (λ narrow. narrow ≡ number) }
{
    match u32::try_from(number) {
        Ok(narrow) => Ok(narrow),
        Err(_) => Err(AllocError),
    }
}

impl Text {
    /// The text of these bytes. Refused as out of memory if there are 2^32 of them or more.
    pub fn from_vec(alloc: Global, bytes: Vec<u8>) -> Result<Text, AllocError>
        ensures { IfOk result (λ text. text ≡ bytes.items) }
    {
        let len = narrowed(bytes.len())?;
        Ok(Text {
            bytes: Rc::new(alloc, Bytes::from_vec(bytes))?,
            start: 0,
            len,
        })
    }

    /// The part of the bytes with so many in front of it, and of that length if there are so many. Takes no bytes.
    pub(crate) fn part(bytes: &Rc<Bytes>, start: usize, len: usize) -> Result<Text, AllocError>
        ensures { IfOk result (λ text. text ≡ take len (drop start bytes.now.value)) }
    {
        let all = bytes.items().len();
        let front = start.min(all);
        Ok(Text {
            bytes: bytes.clone()?,
            start: narrowed(front)?,
            len: narrowed(len.min(all - front))?,
        })
    }

    /// Lends the bytes of the text.
    pub fn items(&self) -> &[u8]
        ensures { result.now ≡ self.now }
    {
        let start = self.start as usize;
        &self.bytes.items()[start..start + self.len as usize]
    }

    /// The same text. Takes no bytes.
    pub fn copied(&self) -> Result<Text, AllocError>
        ensures { IfOk result (λ copy. copy ≡ self.now) }
    {
        Ok(Text {
            bytes: self.bytes.clone()?,
            start: self.start,
            len: self.len,
        })
    }
}
