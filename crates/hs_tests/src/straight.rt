//! The reader of straight programs: the steps of a worked row, with their places.
use hs_base::Pos;
use hs_checker::straight::read;
use hs_tokens::{Origin, SourceToken, scan};
use hs_tree::straight::{Expr, Step};
use std::alloc::Global;
use std::test::Fail;

const ROW: &str =
    "char **NewHandle(long n); void HLock(char **h);\nvoid HUnlock(char **h); int putchar(int c);\nint main(void) { char **h; char **g; char *p; h = NewHandle(4); p = *h; *p = 65; g = NewHandle(4); putchar(*p); return 0; }\n";

/// The tokens of a short text, all of one origin.
fn tokens_of(alloc: Global, text: &str, origin: Origin) -> Result<Vec<SourceToken>, Fail> {
    let bytes = text.as_bytes();
    if bytes.len() > 4096 {
        return Err(Fail::new("the text is short"));
    }
    let mut tokens = Vec::new(alloc);
    for token in scan(alloc, bytes, 0, 4096)? {
        tokens.push(SourceToken { token, origin })?;
    }
    Ok(tokens)
}

// The places are those of the `*` and of the `=` in the third line. What comes from a macro is read as the rest.
#[test]
fn a_row_has_its_steps_and_their_places(rt: HostRuntime) -> Result<(), Fail> {
    let on = |col: u32| Pos {
        file: 0,
        line: 3,
        col,
    };
    let steps = [
        Step::NewHandle { handle: 0, size: 4 },
        Step::Derive {
            pos: on(69),
            pointer: 2,
            handle: 0,
        },
        Step::Store {
            pos: on(76),
            pointer: 2,
            value: Expr::Number { value: 65 },
        },
        Step::NewHandle { handle: 1, size: 4 },
        Step::Putchar {
            value: Expr::Load {
                pos: on(108),
                pointer: 2,
            },
        },
    ];
    for origin in [Origin::Plain, Origin::Macro] {
        let tokens = tokens_of(rt.alloc(), ROW, origin)?;
        let tree = read(rt.alloc(), &tokens)
            .ok()
            .ok_or("memory is there")?
            .ok_or("the tokens spell a straight program")?;
        assert_eq!(rt; tree.steps.items(), steps.as_slice());
        assert_eq!(rt; tree.variables.items().len(), 3);
    }
    Ok(())
}
