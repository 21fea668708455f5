//! Certificates, their texts, and the answers of `verify`.
ghost use Rattle.std.specs.Prelude.{◌≤◌, nat_abs, All, IsTrue};
ghost use Rattle.std.specs.List.Sorted.{IsStrictlyIncreasing};
ghost use Rattle.hs_cert.specs.Certificates.{IsInside};

use crate::networks::{are_vertices, is_numbered, network_of};
use hs_base::Numbers;
use hs_cert::{CertError, Certificate, Wrong, print, read, verify};
use hs_cut::{Flow, Network};
use std::alloc::{AllocError, Global};
use std::test::Fail;

/// Three edges in a row, the last of which is no slot. The second vertex must be inside, the first and the last outside.
fn row(alloc: Global) -> Result<Network, AllocError> {
    network_of(
        alloc,
        4,
        &[(0, 1, true), (1, 2, true), (2, 3, false)],
        &[1],
        &[0, 3],
    )
}

/// Two ways of two slots, from the vertex that must be inside, which is named twice, to the one that must be outside.
fn square(alloc: Global) -> Result<Network, AllocError> {
    network_of(
        alloc,
        4,
        &[(0, 1, true), (0, 2, true), (1, 3, true), (2, 3, true)],
        &[0, 0],
        &[3],
    )
}

fn certificate_of(alloc: Global, inside: &[u32], flow: &[i64]) -> Result<Certificate, AllocError> {
    Ok(Certificate {
        inside: Numbers::from_vec(Vec::from_slice(alloc, inside)?),
        flow: Flow::from_vec(Vec::from_slice(alloc, flow)?),
    })
}

/// Whether each number is below the next.
fn ascend(numbers: &[u32]) -> bool
    ensures { IsTrue result → IsStrictlyIncreasing numbers.now }
{
    numbers.is_sorted_by(|one, next| one < next)
}

/// Whether the numbers ascend, and are vertices.
fn are_inside(inside: &[u32], network: &Network) -> bool
    ensures { IsTrue result → IsInside network.now inside.now }
{
    ascend(inside) && are_vertices(inside, network.vertices)
}

/// Whether no amount is too large.
fn are_small(flow: &[i64]) -> bool
    ensures { IsTrue result → All (λ amount. nat_abs amount ≤ 2147483647) flow.now }
{
    flow.iter()
        .all(|amount| amount.unsigned_abs() <= 2_147_483_647)
}

/// The answer of `verify`. Its scratch has other values at first.
fn verified(
    alloc: Global,
    network: &Network,
    inside: &[u32],
    flow: &[i64],
) -> Result<Result<(), Wrong>, Fail> {
    let c = certificate_of(alloc, inside, flow)?;
    let edges = network.edges.items().len();
    if !is_numbered(network) || !are_inside(c.inside.items(), network) {
        return Err(Fail::new("the numbers are vertices"));
    }
    if edges > 100 || c.flow.items().len() != edges {
        return Err(Fail::new("each edge has a number"));
    }
    let mut scratch = vec![in alloc; -7; network.vertices as usize]?;
    Ok(verify(network, &c, scratch.as_mut_slice()))
}

/// The text of what is a certificate.
fn printed(alloc: Global, network: &Network, c: &Certificate) -> Result<Vec<u8>, Fail> {
    if !are_inside(c.inside.items(), network) || !are_small(c.flow.items()) {
        return Err(Fail::new("the numbers are vertices, the amounts small"));
    }
    if c.flow.items().len() != network.edges.items().len() {
        return Err(Fail::new("each edge has a number"));
    }
    Ok(print(alloc, c, network)?)
}

/// Whether the certificate has this text.
fn is_printed(
    alloc: Global,
    network: &Network,
    inside: &[u32],
    flow: &[i64],
    text: &[u8],
) -> Result<bool, Fail> {
    let c = certificate_of(alloc, inside, flow)?;
    let whole = printed(alloc, network, &c)?;
    Ok(whole.as_slice() == text)
}

/// Whether the text is read as the certificate.
fn is_read(
    alloc: Global,
    network: &Network,
    text: &[u8],
    inside: &[u32],
    flow: &[i64],
) -> Result<bool, Fail> {
    let c = read(alloc, text, network)?;
    Ok(c.inside.items() == inside && c.flow.items() == flow)
}

/// Whether the text is read as the certificate, with its last LF and without it.
fn is_read_both_ways(
    alloc: Global,
    network: &Network,
    text: &[u8],
    inside: &[u32],
    flow: &[i64],
) -> Result<bool, Fail> {
    let Some((_, front)) = text.split_last() else {
        return Ok(false);
    };
    Ok(
        is_read(alloc, network, text, inside, flow)?
            && is_read(alloc, network, front, inside, flow)?,
    )
}

/// The first of the texts that `read` does not refuse as `BadCertificate`, for the network `row`.
fn first_taken<'a>(alloc: Global, texts: &[&'a [u8]]) -> Result<Option<&'a [u8]>, Fail> {
    let network = row(alloc)?;
    for text in texts {
        if read(alloc, *text, &network).err() != Some(CertError::BadCertificate) {
            return Ok(Some(*text));
        }
    }
    Ok(None)
}

// Own rows: texts with their certificates, with the last LF and without it.
#[test]
fn certificates_are_printed_and_read(rt: HostRuntime) -> Result<(), Fail> {
    let alloc = rt.alloc();
    let network = row(alloc)?;
    let rows: [(&[u32], &[i64], &[u8]); 4] = [
        (
            &[1],
            &[-1, 1, 1],
            b"inside 1\nflow 0 -1\nflow 1 1\nflow 2 1\ncrossings 2\n",
        ),
        (&[1], &[-1, 0, 0], b"inside 1\nflow 0 -1\ncrossings 2\n"),
        (&[], &[0, 0, 0], b"inside\ncrossings 0\n"),
        (
            &[0, 1, 3],
            &[2_147_483_647, 0, -2_147_483_647],
            b"inside 0 1 3\nflow 0 2147483647\nflow 2 -2147483647\ncrossings 2\n",
        ),
    ];
    for (inside, flow, text) in rows {
        assert!(rt; is_printed(alloc, &network, inside, flow, text)?);
        assert!(rt; is_read_both_ways(alloc, &network, text, inside, flow)?);
    }
    Ok(())
}

// Own rows: each text differs in one thing from that of a certificate. Here a vertex has a leading 0, a sign, is not a
// vertex of the network, does not fit into 32 bits, is named twice, or does not ascend.
#[test]
fn texts_with_wrong_vertices_are_refused(rt: HostRuntime) -> Result<(), Fail> {
    let texts: [&[u8]; 7] = [
        b"inside 01\nflow 0 -1\ncrossings 2\n",
        b"inside +1\nflow 0 -1\ncrossings 2\n",
        b"inside -1\nflow 0 -1\ncrossings 2\n",
        b"inside 4\ncrossings 0\n",
        b"inside 4294967297\nflow 0 -1\ncrossings 2\n",
        b"inside 1 1\nflow 0 -1\ncrossings 2\n",
        b"inside 2 1\nflow 0 -1\ncrossings 2\n",
    ];
    assert_eq!(rt; first_taken(rt.alloc(), &texts)?, None);
    Ok(())
}

// Own rows: each text differs in one thing from that of a certificate. Here a number of a flow line has a `+`, a leading 0,
// is too large, or is missing.
#[test]
fn texts_with_wrong_amounts_are_refused(rt: HostRuntime) -> Result<(), Fail> {
    let texts: [&[u8]; 7] = [
        b"inside 1\nflow 0 +1\ncrossings 2\n",
        b"inside 1\nflow 0 -01\ncrossings 2\n",
        b"inside 1\nflow 00 -1\ncrossings 2\n",
        b"inside 1\nflow 0 2147483648\ncrossings 2\n",
        b"inside 1\nflow 0 -18446744073709551617\ncrossings 2\n",
        b"inside 1\nflow 18446744073709551616 1\ncrossings 2\n",
        b"inside 1\nflow 0 \ncrossings 2\n",
    ];
    assert_eq!(rt; first_taken(rt.alloc(), &texts)?, None);
    Ok(())
}

// Own rows: each text differs in one thing from that of a certificate. Here an edge is named twice, does not ascend, is not
// an edge of the network, or has no flow.
#[test]
fn texts_with_wrong_edges_are_refused(rt: HostRuntime) -> Result<(), Fail> {
    let texts: [&[u8]; 4] = [
        b"inside 1\nflow 0 -1\nflow 0 -1\ncrossings 2\n",
        b"inside 1\nflow 1 1\nflow 0 -1\ncrossings 2\n",
        b"inside 1\nflow 3 1\ncrossings 2\n",
        b"inside 1\nflow 0 0\ncrossings 2\n",
    ];
    assert_eq!(rt; first_taken(rt.alloc(), &texts)?, None);
    Ok(())
}

// Own rows: each text differs in one thing from that of a certificate. Here the crossings are wrong, a line is blank, lines
// end with CR LF, a line is missing, or there is one more.
#[test]
fn texts_with_wrong_lines_are_refused(rt: HostRuntime) -> Result<(), Fail> {
    let texts: [&[u8]; 6] = [
        b"inside 1\nflow 0 -1\ncrossings 3\n",
        b"inside 1\n\nflow 0 -1\ncrossings 2\n",
        b"inside 1\r\nflow 0 -1\r\ncrossings 2\r\n",
        b"inside 1\nflow 0 -1\n",
        b"flow 0 -1\ncrossings 2\n",
        b"inside 1\nflow 0 -1\ncrossings 2\n\n",
    ];
    assert_eq!(rt; first_taken(rt.alloc(), &texts)?, None);
    Ok(())
}

// Own rows: one for each reason why a set is not a cut, and one where several facts fail.
#[test]
fn a_set_that_is_not_a_cut_is_reported(rt: HostRuntime) -> Result<(), Fail> {
    let alloc = rt.alloc();
    let network = row(alloc)?;
    let rows: [(&[u32], [i64; 3], Result<(), Wrong>); 5] = [
        (&[1], [-1, 1, 1], Ok(())),
        (&[2], [-1, 1, 1], Err(Wrong::Inside)),
        (&[0], [-2, 1, 0], Err(Wrong::Inside)),
        (&[0, 1], [-1, 1, 1], Err(Wrong::Outside)),
        (&[1, 2], [-1, 1, 1], Err(Wrong::Slotless(2))),
    ];
    for (inside, flow, answer) in rows {
        assert_eq!(rt; verified(alloc, &network, inside, &flow)?, answer);
    }
    Ok(())
}

// Own rows: one for each reason why a flow does not fit, and one where several facts fail.
#[test]
fn a_flow_that_does_not_fit_is_reported(rt: HostRuntime) -> Result<(), Fail> {
    let alloc = rt.alloc();
    let network = row(alloc)?;
    let rows: [([i64; 3], Wrong); 6] = [
        ([-2, 1, 0], Wrong::Size(0)),
        ([-1, 1, -2_147_483_648], Wrong::Size(2)),
        ([-1, 1, 0], Wrong::Conservation(2)),
        ([0, 0, 0], Wrong::Value),
        ([0, 1, 1], Wrong::Value),
        ([1, -1, -1], Wrong::Value),
    ];
    for (flow, wrong) in rows {
        assert_eq!(rt; verified(alloc, &network, &[1], &flow)?, Err(wrong));
    }
    Ok(())
}

// Own rows: what flows out of a vertex that is named twice counts once.
#[test]
fn each_vertex_passes_on_what_it_gets(rt: HostRuntime) -> Result<(), Fail> {
    let alloc = rt.alloc();
    let network = square(alloc)?;
    let rows: [([i64; 4], Result<(), Wrong>); 4] = [
        ([1, 1, 1, 1], Ok(())),
        ([1, 1, 0, 0], Err(Wrong::Conservation(1))),
        ([1, 1, 1, 0], Err(Wrong::Conservation(2))),
        ([1, 0, 1, 0], Err(Wrong::Value)),
    ];
    for (flow, answer) in rows {
        assert_eq!(rt; verified(alloc, &network, &[0], &flow)?, answer);
    }
    Ok(())
}
