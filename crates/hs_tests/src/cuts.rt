//! Networks with the cut, or the obstacle, that `best_cut` finds.
use crate::networks::{Line, is_numbered, network_of};
use hs_cut::{Cut, CutEdge, CutEnd, Network, best_cut};
use std::alloc::Global;
use std::test::Fail;

/// The answer for a network of few edges, whose numbers are vertices.
fn answer(alloc: Global, network: &Network) -> Result<Result<Cut, CutEnd>, Fail> {
    if network.edges.items().len() < 1000 && is_numbered(network) {
        Ok(best_cut(alloc, network))
    } else {
        Err(Fail::new("the numbers are vertices"))
    }
}

/// How many of the edges have exactly one end among the vertices.
fn crossings(edges: &[CutEdge], vertices: &[u32]) -> usize {
    edges
        .iter()
        .filter(|edge| vertices.contains(&edge.from) != vertices.contains(&edge.to))
        .count()
}

/// Whether the network has a cut with these vertices inside, and so many edges cross it.
fn is_cut_so(
    alloc: Global,
    network: &Network,
    inside: &[u32],
    crossing: usize,
) -> Result<bool, Fail> {
    let crosses = crossings(network.edges.items(), inside) == crossing;
    match answer(alloc, network)? {
        Ok(cut) => Ok(crosses && cut.inside.items() == inside),
        Err(_) => Err(Fail::new("there is a cut, and memory")),
    }
}

/// Whether the network has a cut, and this is the flow.
fn flows_so(alloc: Global, network: &Network, flow: &[i64]) -> Result<bool, Fail> {
    match answer(alloc, network)? {
        Ok(cut) => Ok(cut.flow.items() == flow),
        Err(_) => Err(Fail::new("there is a cut, and memory")),
    }
}

/// Whether the network has no cut, and this path is the obstacle.
fn is_refused_so(alloc: Global, network: &Network, path: &[u32]) -> Result<bool, Fail> {
    match answer(alloc, network)? {
        Err(CutEnd::NoCut(found)) => Ok(found.items() == path),
        Err(CutEnd::NoMemory) => Err(Fail::new("there is memory")),
        Ok(_) => Err(Fail::new("there is no cut")),
    }
}

// The vertices inside, and how many edges cross. Worked out by hand from pictures.
#[test]
fn small_networks_are_cut_so(rt: HostRuntime) -> Result<(), Fail> {
    let alloc = rt.alloc();
    let rows: [(u32, &[Line], &[u32], &[u32], &[u32], usize); 8] = [
        // two slots around a vertex
        (
            4,
            &[(0, 1, true), (1, 2, true), (2, 3, false)],
            &[1],
            &[0, 3],
            &[1],
            2,
        ),
        // two ways side by side: cuts at either end have two crossings
        (
            4,
            &[(0, 1, true), (0, 2, true), (1, 3, true), (2, 3, true)],
            &[0],
            &[3],
            &[0],
            2,
        ),
        // a unit has to go back over an edge in the middle
        (
            4,
            &[
                (0, 1, true),
                (1, 2, true),
                (2, 3, true),
                (0, 2, true),
                (1, 3, true),
            ],
            &[0],
            &[3],
            &[0],
            2,
        ),
        // parallel edges
        (
            3,
            &[
                (0, 1, true),
                (1, 0, true),
                (0, 1, true),
                (1, 2, true),
                (2, 1, true),
            ],
            &[0],
            &[2],
            &[0, 1],
            2,
        ),
        // loops at vertices
        (
            2,
            &[(0, 0, true), (0, 1, true), (1, 1, false)],
            &[0],
            &[1],
            &[0],
            1,
        ),
        // edges that end where what must be inside begins
        (3, &[(1, 0, true), (2, 1, true)], &[0], &[2], &[0], 1),
        // no demand at all, and none outside: what the edges reach is inside, and vertex 2 is not
        (3, &[(0, 1, true)], &[], &[], &[], 0),
        (3, &[(0, 1, true)], &[0], &[], &[0, 1], 0),
    ];
    for (vertices, lines, inside, outside, found, crossing) in rows {
        let network = network_of(alloc, vertices, lines, inside, outside)?;
        assert!(rt; is_cut_so(alloc, &network, found, crossing)?);
    }
    Ok(())
}

// The obstacle of each network that has no cut. Worked out by hand from pictures.
#[test]
fn networks_without_a_cut_have_this_obstacle(rt: HostRuntime) -> Result<(), Fail> {
    let alloc = rt.alloc();
    let rows: [(u32, &[Line], &[u32], &[u32], &[u32]); 5] = [
        // an edge that is no slot joins the demands
        (
            4,
            &[(0, 1, true), (1, 2, false), (2, 3, false)],
            &[1],
            &[2],
            &[1, 2],
        ),
        // a common vertex
        (2, &[(0, 1, true)], &[1], &[0, 1], &[1]),
        // two shortest paths, the greater one first, and a longer one
        (
            5,
            &[
                (0, 2, false),
                (2, 3, false),
                (0, 1, false),
                (3, 1, false),
                (0, 4, false),
            ],
            &[0],
            &[3],
            &[0, 1, 3],
        ),
        // two vertices of one level
        (
            4,
            &[(2, 3, false), (1, 3, false), (0, 1, false)],
            &[2, 1, 0],
            &[3],
            &[1, 3],
        ),
        // the nearer vertex, though a lesser one is joined too
        (
            4,
            &[(0, 1, false), (1, 3, false), (2, 3, false)],
            &[0, 2],
            &[3],
            &[2, 3],
        ),
    ];
    for (vertices, lines, inside, outside, path) in rows {
        let network = network_of(alloc, vertices, lines, inside, outside)?;
        assert!(rt; is_refused_so(alloc, &network, path)?);
    }
    Ok(())
}

// If one flow fits, it is that one: against the first edge, and on to the last vertex.
#[test]
fn the_flow_leaves_over_both_slots(rt: HostRuntime) -> Result<(), Fail> {
    let alloc = rt.alloc();
    let network = network_of(
        alloc,
        4,
        &[(0, 1, true), (1, 2, true), (2, 3, false)],
        &[1],
        &[0, 3],
    )?;
    assert!(rt; flows_so(alloc, &network, &[-1, 1, 1])?);
    Ok(())
}
