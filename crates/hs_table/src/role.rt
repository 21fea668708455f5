//! The roles of routines.

/// What a routine does to blocks, input and output.
#[derive(Clone, Copy, Debug)]
pub enum Role {
    /// Takes a number of bytes. Makes a relocatable block of that size, and returns its handle or NIL.
    NewHandle,
    /// Takes a handle. Ends its block.
    DisposeHandle,
    /// Takes a handle. Returns the size of its block in bytes.
    GetSize,
    /// Takes a handle and a number of bytes. Changes the size of its block to that number.
    SetSize,
    /// Takes a handle. Locks its block.
    Lock,
    /// Takes a handle. Unlocks its block.
    Unlock,
    /// Takes a handle. Makes its block purgeable.
    Purge,
    /// Takes a handle. Makes its block unpurgeable.
    NoPurge,
    /// Takes a handle. Returns the byte that has the attributes of its block.
    GetState,
    /// Takes a handle and such a byte. Puts the attributes of its block back to those that the byte has.
    SetState,
    /// Takes a handle. Frees the memory of its block, and keeps the handle.
    Empty,
    /// Takes a handle and a number of bytes. Makes a block of that size for the handle.
    Realloc,
    /// Takes a number of bytes. Makes a nonrelocatable block of that size, and returns its pointer or NIL.
    NewPtr,
    /// Takes a pointer. Ends its nonrelocatable block.
    DisposePtr,
    /// Takes two pointers and a number of bytes. Copies that many bytes from the first to the second.
    BlockMove,
    /// Takes nothing. Returns the next character of the input, or EOF.
    Getchar,
    /// Takes a character. Writes it to the output.
    Putchar,
    /// Any other routine.
    Plain,
}
