//! The built-in table, routine by routine.

use hs_table::{Routine, built_in};
use std::alloc::{AllocError, Global};
use std::test::Fail;

/// The built-in table, written out by hand.
const LINES: &str = "DrawString: Plain, moves true, purges true, fills 0, size 0
GetNextEvent: Plain, moves true, purges true, fills 2, size 0
HGetState: GetState, moves false, purges false, fills 0, size 0
HLock: Lock, moves false, purges false, fills 0, size 0
HNoPurge: NoPurge, moves false, purges false, fills 0, size 0
HPurge: Purge, moves false, purges false, fills 0, size 0
HSetState: SetState, moves false, purges false, fills 0, size 0
HUnlock: Unlock, moves false, purges false, fills 0, size 0
InsetRect: Plain, moves false, purges false, fills 0, size 0
NewHandle: NewHandle, moves true, purges true, fills 0, size 0
TEKey: Plain, moves true, purges true, fills 0, size 0
TENew: Plain, moves true, purges true, fills 0, size 0
TEUpdate: Plain, moves true, purges true, fills 0, size 0
getchar: Getchar, moves false, purges false, fills 0, size 0
putchar: Putchar, moves false, purges false, fills 0, size 0
";

/// The routine as a line.
fn line(alloc: Global, routine: &Routine) -> Result<String, AllocError> {
    let name = String::from_utf8_lossy(alloc, routine.name.items())?;
    let Routine {
        role,
        moves,
        purges,
        fills,
        size,
        ..
    } = routine;
    format!(in alloc;
        "{name}: {role:?}, moves {moves}, purges {purges}, fills {fills}, size {size}\n"
    )
}

// The built-in table has these fifteen routines, in this order.
#[test]
fn the_built_in_table_has_these_routines(rt: HostRuntime) -> Result<(), Fail> {
    let alloc = rt.alloc();
    let table = built_in(alloc)?;
    let mut lines = String::new(alloc);
    for routine in table.routines() {
        lines.push_str(line(alloc, routine)?.as_str())?;
    }
    assert_eq!(rt; lines.as_str(), LINES);
    assert_eq!(rt; table.routines().len(), 15);
    Ok(())
}
