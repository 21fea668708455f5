//! The sample table, the text that is printed, and bytes that are not a text.

use hs_table::{Routine, Table, built_in};
use hs_table_text::{TableError, print, read};
use std::alloc::{AllocError, Global};
use std::test::Fail;

/// The bytes of `data/table.toml` at the top of the repository.
const SAMPLE: &str =
    "# The sample table of this project: the same fifteen routines that are built into the program.
# It makes no statement about the real routines of the Macintosh. Before you trust a verdict on a program of yours, write
# down the routines that it calls, from the manual that you program by. docs/TABLES.md says how.

version = 1

[routine]

# Blocks
NewHandle = { role = \"new_handle\", moves = true, purges = true }
HLock = { role = \"lock\" }
HUnlock = { role = \"unlock\" }
HPurge = { role = \"purge\" }
HNoPurge = { role = \"no_purge\" }
HGetState = { role = \"get_state\" }
HSetState = { role = \"set_state\" }

# Characters
getchar = { role = \"getchar\" }
putchar = { role = \"putchar\" }

# Text, events and rectangles
TENew = { role = \"plain\", moves = true, purges = true }
TEKey = { role = \"plain\", moves = true, purges = true }
TEUpdate = { role = \"plain\", moves = true, purges = true }
DrawString = { role = \"plain\", moves = true, purges = true }
GetNextEvent = { role = \"plain\", moves = true, purges = true, fills = 2 }
InsetRect = { role = \"plain\" }
";

/// Whether the two routines have the same fields.
fn is_same_routine(one: &Routine, other: &Routine) -> bool {
    let same_name = one.name.items() == other.name.items();
    let same_role = one.role == other.role;
    let same_flags = one.moves == other.moves && one.purges == other.purges;
    let same_numbers = one.fills == other.fills && one.size == other.size;
    same_name && same_role && same_flags && same_numbers
}

/// Whether the two tables have the same routines in the same order.
fn is_same_table(one: &Table, other: &Table) -> bool {
    let (ones, others) = (one.routines(), other.routines());
    ones.len() == others.len() && ones.iter().zip(others).all(|(a, b)| is_same_routine(a, b))
}

/// The text of a document of version 1 with one routine that is written so.
fn routine_text(alloc: Global, routine: &str) -> Result<String, AllocError> {
    format!(in alloc; "version = 1\n[routine]\n{routine}\n")
}

// The sample table is the table that is built in.
#[test]
fn the_sample_is_the_built_in_table(rt: HostRuntime) -> Result<(), Fail> {
    let alloc = rt.alloc();
    let table = read(alloc, SAMPLE.as_bytes())?;
    assert_eq!(rt; table.routines().len(), 15);
    assert!(rt; is_same_table(&table, &built_in(alloc)?));
    Ok(())
}

// A printed table is read back.
#[test]
fn a_printed_table_is_read_back(rt: HostRuntime) -> Result<(), Fail> {
    let alloc = rt.alloc();
    let table = built_in(alloc)?;
    let text = print(alloc, &table)?;
    let back = read(alloc, text.as_slice())?;
    assert!(rt; is_same_table(&table, &back));
    Ok(())
}

// The form of the text that is printed.
#[test]
fn a_table_is_printed_in_this_form(rt: HostRuntime) -> Result<(), Fail> {
    let alloc = rt.alloc();
    let routines =
        "HLock = { role = \"lock\" }\nGetNextEvent = { role = \"plain\", moves = true, fills = 2 }";
    let table = read(alloc, routine_text(alloc, routines)?.as_bytes())?;
    let wanted = "version = 1

[routine.GetNextEvent]
fills = 2
moves = true
purges = false
role = \"plain\"

[routine.HLock]
moves = false
purges = false
role = \"lock\"
";
    assert!(rt; print(alloc, &table)?.as_slice() == wanted.as_bytes());
    Ok(())
}

// A document without routines.
#[test]
fn there_may_be_no_routines(rt: HostRuntime) -> Result<(), Fail> {
    let alloc = rt.alloc();
    let text = print(alloc, &read(alloc, b"version = 1\n[routine]\n")?)?;
    assert!(rt; text.as_slice() == b"version = 1\n\n[routine]\n".as_slice());
    Ok(())
}

// Bytes that are not UTF-8.
#[test]
fn these_bytes_are_not_toml(rt: HostRuntime) -> Result<(), Fail> {
    let answer = read(rt.alloc(), b"version = 1 # \xff");
    assert!(rt; matches!(answer, Err(TableError::NotToml)));
    Ok(())
}
