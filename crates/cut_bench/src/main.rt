//! Cuts a strip of slots, for measurements by hand.
#![tactic(auto)]

ghost use Rattle.std.specs.Prelude.{◌≡◌, ◌<◌, ◌≤◌, ◌*◌, ◌+◌, ◌^◌, length, IfOk, OnOk};
ghost use Rattle.std.specs.List.{All};
ghost use Rattle.hs_cut.specs.Flows.{Fits};
ghost use Rattle.hs_cut.specs.Networks.{among, IsNumbered};
ghost use Rattle.hs_cert.specs.Certificates.{IsCertificate};
ghost use Rattle.hs_cert.specs.Texts.{text_of};
ghost use Rattle.hs_cert.specs.declared.certificate.Certificate.{Certificate};

use hs_base::{NoMemory, Numbers};
use hs_cert::{Certificate, print};
use hs_cut::{CutEdge, CutEdges, CutEnd, Network, best_cut};
use std::alloc::Global;
use std::{env, io};

/// The most rows, and the most vertices.
const MOST: u32 = 1_000_000;

/// Puts a slot between the vertices, if the second is one.
fn put_slot(edges: &mut Vec<CutEdge>, from: u32, to: u32, vertices: u32) -> Result<(), NoMemory>
    requires from { from < vertices }
    requires below { All (λ edge. (edge.from < vertices) × (edge.to < vertices)) edges.old.items }
    ensures below { OnOk result (All (λ edge. (edge.from < vertices) × (edge.to < vertices)) edges.new.items) }
    ensures one { OnOk result (length edges.new.items ≤ length edges.old.items + 1) }
{
    if to < vertices {
        edges.push(CutEdge {
            from,
            to,
            slot: true,
        })?;
    }
    Ok(())
}

/// The slots of a strip whose vertices stand in columns of so many rows: from each to the next in its column and to the one
/// next to it in the next column.
fn slots(alloc: Global, rows: u32, vertices: u32) -> Result<Vec<CutEdge>, NoMemory>
    requires rows { (0 < rows) × (rows ≤ 1000000) }
    requires vertices { vertices ≤ 1000000 }
    ensures below { IfOk result (λ edges. All (λ edge. (edge.from < vertices) × (edge.to < vertices)) edges.items) }
    ensures few { IfOk result (λ edges. length edges.items ≤ 2 * vertices) }
{
    let mut edges = Vec::new(alloc);
    'vertices: for vertex in 0..vertices {
        put_slot(&mut edges, vertex, vertex + rows, vertices)?;
        if (vertex + 1) % rows != 0 {
            put_slot(&mut edges, vertex, vertex + 1, vertices)?;
        }
    }
    Ok(edges)
}

/// The numbers from the one on to below the other.
fn numbers(alloc: Global, from: u32, to: u32) -> Result<Numbers, NoMemory>
    ensures { IfOk result (λ numbers. All (λ number. number < to) numbers) }
{
    Ok(Numbers::from_vec((from..to).collect(alloc)?))
}

/// The strip: its first column must be inside, its last outside.
fn strip(alloc: Global, rows: u32, vertices: u32) -> Result<Network, NoMemory>
    requires rows { (0 < rows) × (rows ≤ vertices) }
    requires vertices { vertices ≤ 1000000 }
    ensures numbered { IfOk result (λ network. IsNumbered network) }
    ensures few { IfOk result (λ network. length network.edges ≤ 2000000) }
{
    Ok(Network {
        vertices,
        edges: CutEdges::from_vec(slots(alloc, rows, vertices)?),
        inside: numbers(alloc, 0, rows)?,
        outside: numbers(alloc, vertices - rows, vertices)?,
    })
}

/// The text of a certificate of a least cut.
fn least_cut(alloc: Global, network: &Network) -> Result<Vec<u8>, CutEnd>
    requires numbered { IsNumbered network.now }
    requires few { length network.now.edges ≤ 2000000 }
    ensures { IfOk result (λ text. (c : Certificate) × IsCertificate network.now c × Fits network.now (among c.inside) c.flow
        × (text.items ≡ text_of network.now c)) }
{
    let cut = best_cut(alloc, network)?;
    let certificate = Certificate {
        inside: cut.inside,
        flow: cut.flow,
    };
    Ok(print(alloc, &certificate, network)?)
}

fn main(rt: HostRuntime) -> io::Result<()> {
    let alloc = rt.alloc();
    let mut numbers = env::args(&rt)?
        .skip(1)
        .filter_map(|word| word.as_str().parse::<u32>().ok());
    let (Some(rows), Some(vertices)) = (numbers.next(), numbers.next()) else {
        println!(rt; "usage: cut_bench ROWS VERTICES")?;
        return Ok(());
    };
    if rows == 0 || rows > vertices || vertices > MOST {
        println!(rt; "there are from 1 to VERTICES rows, and at most {MOST} vertices")?;
        return Ok(());
    }
    let Ok(network) = strip(alloc, rows, vertices) else {
        println!(rt; "no memory")?;
        return Ok(());
    };
    match least_cut(alloc, &network) {
        Ok(text) => rt.stdout().write_all(&text)?,
        Err(CutEnd::NoCut(path)) => println!(rt; "no cut, by {} vertices", path.items().len())?,
        Err(CutEnd::NoMemory) => println!(rt; "no memory")?,
    }
    Ok(())
}
