//! From a text to the certificate.

ghost use Rattle.std.specs.Prelude.{◌≡◌, ◌≤◌, ◌++◌, ◌∷◌, [], ◌⊎◌, ◌↔◌, length, nat_abs, pos, replicate, set, IsTrue, IfOk, Err};
ghost use Rattle.std.specs.List.{All};
ghost use Rattle.std.specs.List.Sorted.{IsStrictlyIncreasing};
ghost use Rattle.hs_cert.specs.declared.certificate.Certificate.{Certificate};
ghost use Rattle.hs_cert.specs.declared.certificate.CertError.TheVariants.{BadCertificate};
ghost use Rattle.hs_cert.specs.Certificates.{IsCertificate, IsInside};
ghost use Rattle.hs_cert.specs.Reading.{ReadsFlow, ReadsWords};
ghost use Rattle.hs_cert.specs.Texts.{IsTextOf};

use crate::certificate::{CertError, Certificate};
use crate::lines::{after, number, read_line};
use crate::printer::print;
use hs_base::{NoMemory, Numbers};
use hs_cut::{Flow, Network};
use std::alloc::Global;

/// Numbers, and the text after them.
#[derive(Drop)]
struct Words<'a> {
    vertices: Vec<u32>,
    rest: &'a [u8],
}

/// The numbers that stand in front, each after a blank, and each cut to the limit.
fn read_words(alloc: Global, limit: u32, text: &[u8]) -> Result<Words<'_>, NoMemory>
    ensures { IfOk result (λ words. ReadsWords limit text.now words.vertices.items words.rest.now) }
{
    let mut vertices = Vec::new(alloc);
    let mut rest = text;
    'words: while let Some(digits) = after(b" ", rest) {
        let (vertex, behind) = number(u64::from(limit), digits);
        vertices.push(vertex as u32)?;
        rest = behind;
    }
    Ok(Words { vertices, rest })
}

/// Puts the amount at the edge, if there is one of that number.
#[tactic(auto, using(std::proofs::lemmas::List::set_past))]
fn put(flow: &mut [i64], edge: u64, amount: i64)
    ensures { flow.new ≡ set flow.old edge amount }
{
    let at = edge as usize;
    if at < flow.len() {
        flow[at] = amount;
    }
}

/// No flow over each of so many edges.
fn no_flow(alloc: Global, edges: usize) -> Result<Vec<i64>, NoMemory>
    ensures { IfOk result (λ flow. flow.items ≡ replicate edges (pos 0)) }
{
    Ok(vec![in alloc; 0; edges]?)
}

/// What flows over each of so many edges, by the lines that stand in front: 0 if no line names the edge.
fn read_flow(alloc: Global, text: &[u8], edges: usize) -> Result<Vec<i64>, NoMemory>
    ensures each { IfOk result (λ flow. length flow.items ≡ edges) }
    ensures read { IfOk result (λ flow. ReadsFlow text.now flow.items) }
{
    let mut flow = no_flow(alloc, edges)?;
    let mut rest = text;
    'lines: while let Some(line) = read_line(rest) {
        put(flow.as_mut_slice(), line.edge, line.amount);
        rest = line.rest;
    }
    Ok(flow)
}

/// What the certificate is, if the text is that of one.
fn read_any(alloc: Global, text: &[u8], network: &Network) -> Result<Certificate, CertError>
    ensures each { IfOk result (λ c. length c.flow ≡ length network.now.edges) }
    ensures only { IfOk result (λ c. (other : Certificate) → IsCertificate network.now other → IsTextOf network.now other text.now → other ≡ c) }
    ensures refused { result ≡ Err BadCertificate → (c : Certificate) → IsCertificate network.now c → IsTextOf network.now c text.now → ⊥ }
{
    let behind = after(b"inside", text).ok_or(CertError::BadCertificate)?;
    let words = read_words(alloc, network.vertices, behind)?;
    let lines = after(b"\n", words.rest).ok_or(CertError::BadCertificate)?;
    let flow = read_flow(alloc, lines, network.edges.items().len())?;
    Ok(Certificate {
        inside: Numbers::from_vec(words.vertices),
        flow: Flow::from_vec(flow),
    })
}

/// Whether each number is below the next.
fn ascend(numbers: &[u32]) -> bool
    ensures { IsTrue result ↔ IsStrictlyIncreasing numbers.now }
{
    numbers.is_sorted_by(|one, next| one < next)
}

/// Whether the numbers ascend, and are vertices.
pub(crate) fn are_inside(inside: &[u32], network: &Network) -> bool
    ensures { IsTrue result ↔ IsInside network.now inside.now }
{
    ascend(inside) && inside.iter().all(|vertex| *vertex < network.vertices)
}

/// Whether no amount is too large.
pub(crate) fn are_small(flow: &[i64]) -> bool
    ensures { IsTrue result ↔ All (λ amount. nat_abs amount ≤ 2147483647) flow.now }
{
    flow.iter()
        .all(|amount| amount.unsigned_abs() <= 2_147_483_647)
}

/// Whether the text is the printed one without its last LF.
fn is_front(text: &[u8], printed: &[u8]) -> bool
    ensures { IsTrue result ↔ (text.now ++ 10 ∷ [] ≡ printed.now) }
{
    let Some((last, front)) = printed.split_last() else {
        return false;
    };
    *last == b'\n' && text == front
}

/// Whether the text is the printed one, with its last LF or without it.
fn is_text(text: &[u8], printed: &[u8]) -> bool
    ensures { IsTrue result ↔ ((text.now ≡ printed.now) ⊎ (text.now ++ 10 ∷ [] ≡ printed.now)) }
{
    text == printed || is_front(text, printed)
}

/// The certificate of the network that the text is. Whether it fits, `verify` tells.
///
/// # Errors
///
/// `BadCertificate` exactly if the text is that of none; `NoMemory` if memory runs out.
pub fn read(alloc: Global, text: &[u8], network: &Network) -> Result<Certificate, CertError>
    ensures found { IfOk result (λ c. IsCertificate network.now c × IsTextOf network.now c text.now) }
    ensures only { IfOk result (λ c. (other : Certificate) → IsCertificate network.now other → IsTextOf network.now other text.now → other ≡ c) }
    ensures refused { result ≡ Err BadCertificate → (c : Certificate) → IsCertificate network.now c → IsTextOf network.now c text.now → ⊥ }
{
    let c = read_any(alloc, text, network)?;
    if !are_inside(c.inside.items(), network) || !are_small(c.flow.items()) {
        return Err(CertError::BadCertificate);
    }
    let printed = print(alloc, &c, network)?;
    if !is_text(text, printed.as_slice()) {
        return Err(CertError::BadCertificate);
    }
    Ok(c)
}
