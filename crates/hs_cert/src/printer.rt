//! From a certificate to its text.

ghost use Rattle.std.specs.Prelude.{◌≡◌, ◌<◌, ◌++◌, ◌∷◌, [], codes, IfOk, OnOk};
ghost use Rattle.std.specs.Fmt.{decimal};
ghost use Rattle.std.specs.List.{All};
ghost use Rattle.hs_cut.specs.Networks.{among, crossings};
ghost use Rattle.hs_cert.specs.Certificates.{IsCertificate};
ghost use Rattle.hs_cert.specs.Texts.{flow_line, flow_lines, inside_line, text_of};

use crate::certificate::Certificate;
use crate::flags::{crossings, flag};
use hs_base::NoMemory;
use hs_cut::Network;
use itoa::Buffer;
use std::alloc::Global;

/// Writes the line of the vertices inside.
fn print_inside(text: &mut Vec<u8>, inside: &[u32]) -> Result<(), NoMemory>
    ensures { OnOk result (text.new.items ≡ text.old.items ++ inside_line inside.now) }
{
    let mut buffer = Buffer::new();
    text.extend_from_slice(b"inside")?;
    for vertex in inside {
        text.push(b' ')?;
        text.extend_from_slice(buffer.format(*vertex).as_bytes())?;
    }
    text.push(b'\n')?;
    Ok(())
}

/// Writes the line of an edge: none if nothing flows.
fn print_edge(text: &mut Vec<u8>, edge: usize, amount: i64) -> Result<(), NoMemory>
    ensures { OnOk result (text.new.items ≡ text.old.items ++ flow_line edge amount) }
{
    if amount == 0 {
        return Ok(());
    }
    let mut buffer = Buffer::new();
    text.extend_from_slice(b"flow ")?;
    text.extend_from_slice(buffer.format(edge).as_bytes())?;
    text.push(b' ')?;
    text.extend_from_slice(buffer.format(amount).as_bytes())?;
    text.push(b'\n')?;
    Ok(())
}

/// Writes the lines of the edges.
fn print_flow(text: &mut Vec<u8>, flow: &[i64]) -> Result<(), NoMemory>
    ensures { OnOk result (text.new.items ≡ text.old.items ++ flow_lines 0 flow.now) }
{
    for (edge, amount) in flow.iter().enumerate() {
        print_edge(text, edge, *amount)?;
    }
    Ok(())
}

/// How many edges cross, if these vertices are inside.
fn count_crossings(alloc: Global, inside: &[u32], network: &Network) -> Result<usize, NoMemory>
    requires within { All (λ vertex. vertex < network.now.vertices) inside.now }
    ensures { IfOk result (λ count. count ≡ crossings (among inside.now) network.now.edges) }
{
    let mut flags = vec![in alloc; 0i64; network.vertices as usize]?;
    flag(flags.as_mut_slice(), inside);
    Ok(crossings(flags.as_slice(), network.edges.items()))
}

/// Writes the line of the crossings.
fn print_crossings(text: &mut Vec<u8>, count: usize) -> Result<(), NoMemory>
    ensures { OnOk result (text.new.items ≡ text.old.items ++ codes "crossings " ++ decimal count ++ 10 ∷ []) }
{
    let mut buffer = Buffer::new();
    text.extend_from_slice(b"crossings ")?;
    text.extend_from_slice(buffer.format(count).as_bytes())?;
    text.push(b'\n')?;
    Ok(())
}

/// The text of a certificate.
///
/// Example: for edges from 0 to 1 and from 1 to 2, with 0 inside and 1 along each edge: `inside 0`, `flow 0 1`, `flow 1 1`
/// and `crossings 1`, a line each.
///
/// # Errors
///
/// `NoMemory` if memory runs out.
pub fn print(alloc: Global, c: &Certificate, network: &Network) -> Result<Vec<u8>, NoMemory>
    requires certificate { IsCertificate network.now c.now }
    ensures { IfOk result (λ text. text.items ≡ text_of network.now c.now) }
{
    let count = count_crossings(alloc, c.inside.items(), network)?;
    let mut text = Vec::new(alloc);
    print_inside(&mut text, c.inside.items())?;
    print_flow(&mut text, c.flow.items())?;
    print_crossings(&mut text, count)?;
    Ok(text)
}
