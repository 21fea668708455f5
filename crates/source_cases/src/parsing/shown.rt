//! How an expression is read, in a line.

use hs_syntax::{Expr, Left};
use std::alloc::{AllocError, Global};

/// Writes a text. If there is no memory for it, it is not in what the program compares, so that the case is answered otherwise.
fn put(out: &mut Vec<u8>, text: &[u8]) {
    let _ = out.extend_from_slice(text);
}

/// Writes an expression with parentheses around each operation, and braces for the parentheses that were read.
#[cycle(show)]
fn show(out: &mut Vec<u8>, e: &Expr) {
    match e {
        Expr::Name(it) => put(out, it.text.items()),
        Expr::Number(it) => put(out, it.text.items()),
        Expr::Character(it) => put(out, it.text.items()),
        Expr::Strings(first, _) => put(out, first.text.items()),
        Expr::Parens { inner, .. } => {
            put(out, b"{");
            show(out, inner);
            put(out, b"}")
        }
        Expr::Index { base, index, .. } => {
            show(out, base);
            put(out, b"[");
            show(out, index);
            put(out, b"]")
        }
        Expr::Call { callee, arguments } => {
            show(out, callee);
            show_all(out, arguments)
        }
        Expr::Member {
            base,
            access,
            name,
            ..
        } => {
            show(out, base);
            put(out, access.text().as_bytes());
            put(out, name.text.items())
        }
        Expr::Postfix {
            operand,
            operator,
            ..
        } => {
            put(out, b"(");
            show(out, operand);
            put(out, operator.text().as_bytes());
            put(out, b")")
        }
        Expr::Prefix {
            operator,
            operand,
            ..
        } => {
            put(out, b"(");
            put(out, operator.text().as_bytes());
            show(out, operand);
            put(out, b")")
        }
        Expr::SizeofValue { operand, .. } => {
            put(out, b"(sizeof ");
            show(out, operand);
            put(out, b")")
        }
        Expr::SizeofType { .. } => put(out, b"(sizeof type)"),
        Expr::Cast { operand, .. } => {
            put(out, b"(type ");
            show(out, operand);
            put(out, b")")
        }
        Expr::Binary {
            left,
            operator,
            right,
            ..
        } => {
            put(out, b"(");
            show(out, left);
            put(out, operator.text().as_bytes());
            show(out, right);
            put(out, b")")
        }
        Expr::Conditional {
            test,
            then,
            otherwise,
            ..
        } => {
            put(out, b"(");
            show(out, test);
            put(out, b"?");
            show(out, then);
            put(out, b":");
            show(out, otherwise);
            put(out, b")")
        }
        Expr::Assign {
            target,
            operator,
            value,
            ..
        } => {
            put(out, b"(");
            show(out, target);
            put(out, operator.text().as_bytes());
            show(out, value);
            put(out, b")")
        }
        Expr::Comma { lefts, right } => {
            put(out, b"(");
            show_lefts(out, lefts);
            show(out, right);
            put(out, b")")
        }
    }
}

/// Writes arguments.
#[cycle(show)]
fn show_all(out: &mut Vec<u8>, its: &[Expr]) {
    put(out, b"(");
    for it in its {
        show(out, it);
        put(out, b";");
    }
    put(out, b")")
}

/// Writes the left operands of commas.
#[cycle(show)]
fn show_lefts(out: &mut Vec<u8>, its: &[Left]) {
    for it in its {
        show(out, &it.operand);
        put(out, b",");
    }
}

/// An expression with parentheses around each operation, and braces for the parentheses that were read.
pub(crate) fn shown(alloc: Global, e: &Expr) -> Result<String, AllocError> {
    let mut out = Vec::new(alloc);
    show(&mut out, e);
    String::from_utf8_lossy(alloc, &out)
}
