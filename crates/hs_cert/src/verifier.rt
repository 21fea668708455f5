//! Whether a certificate fits its network.

ghost use Rattle.std.specs.Prelude.{◌≡◌, ◌<◌, ◌≤◌, ◌^◌, length, nat_abs, OnOk, IfOk, IfErr, IfSome, IfNone};
ghost use Rattle.std.specs.List.{All};
ghost use Rattle.hs_cut.specs.Flows.{Fits, IsConserved, net_out};
ghost use Rattle.hs_cut.specs.Networks.{Side, among, crossings, IsCut, IsNumbered};
ghost use Rattle.hs_cert.specs.Certificates.{IsInside, IsWrong, IsFirstUnequal};

use crate::certificate::{Certificate, Wrong};
use crate::flags::{all_flagged, any_flagged, crossings, first_slotless, flag};
use crate::flows::{balance, clear, first_too_large, first_unequal, net_out};
use hs_cut::Network;

/// How many edges cross, if the vertices inside are a cut.
fn check_cut(network: &Network, c: &Certificate, scratch: &mut [i64]) -> Result<usize, Wrong>
    requires countable { length network.now.edges < 2 ^ 32 }
    requires inside { IsInside network.now c.now.inside }
    requires scratch { length scratch.old ≡ network.now.vertices }
    ensures scratch { length scratch.new ≡ length scratch.old }
    ensures cut { OnOk result (IsCut network.now (among c.now.inside)) }
    ensures crossings { IfOk result (λ count. count ≡ crossings (among c.now.inside) network.now.edges) }
    ensures wrong { IfErr result (λ wrong. IsWrong network.now c.now.inside c.now.flow wrong) }
{
    let edges = network.edges.items();
    flag(scratch, c.inside.items());
    if !all_flagged(scratch, network.inside.items()) {
        return Err(Wrong::Inside);
    }
    if any_flagged(scratch, network.outside.items()) {
        return Err(Wrong::Outside);
    }
    if let Some(at) = first_slotless(scratch, edges) {
        return Err(Wrong::Slotless(at as u32));
    }
    Ok(crossings(scratch, edges))
}

/// The first vertex without a demand where what flows out is not what flows in.
fn first_unbalanced(network: &Network, flow: &[i64], sums: &mut [i64]) -> Option<u32>
    requires numbered { IsNumbered network.now }
    requires countable { length network.now.edges < 2 ^ 32 }
    requires each { length flow.now ≡ length network.now.edges }
    requires small { All (λ amount. nat_abs amount ≤ 2147483647) flow.now }
    requires sums { length sums.old ≡ network.now.vertices }
    ensures sums { length sums.new ≡ length sums.old }
    ensures found { IfSome result (IsFirstUnequal network.now flow.now) }
    ensures none { IfNone result (IsConserved network.now flow.now) }
{
    balance(sums, network.edges.items(), flow);
    clear(sums, network.inside.items());
    clear(sums, network.outside.items());
    first_unequal(sums, network.vertices)
}

/// What flows out of the vertices that must be inside, less what flows in.
fn value(network: &Network, flow: &[i64], flags: &mut [i64]) -> i64
    requires numbered { IsNumbered network.now }
    requires countable { length network.now.edges < 2 ^ 32 }
    requires each { length flow.now ≡ length network.now.edges }
    requires small { All (λ amount. nat_abs amount ≤ 2147483647) flow.now }
    requires flags { length flags.old ≡ network.now.vertices }
    ensures { result ≡ net_out (among network.now.inside) network.now.edges flow.now }
{
    flag(flags, network.inside.items());
    net_out(flags, network.edges.items(), flow)
}

/// Whether the certificate fits the network: then no cut has fewer crossings. It takes no memory but the scratch, which has
/// one place for each vertex, and leaves anything there. Time is in proportion to the vertices and the edges.
///
/// # Errors
///
/// The first fact that fails, in the order of `Wrong`.
pub fn verify(network: &Network, c: &Certificate, scratch: &mut [i64]) -> Result<(), Wrong>
    requires numbered { IsNumbered network.now }
    requires countable { length network.now.edges < 2 ^ 32 }
    requires inside { IsInside network.now c.now.inside }
    requires each { length c.now.flow ≡ length network.now.edges }
    requires scratch { length scratch.old ≡ network.now.vertices }
    ensures fits { OnOk result (Fits network.now (among c.now.inside) c.now.flow) }
    ensures least { OnOk result ((other : Side) → IsCut network.now other
        → crossings (among c.now.inside) network.now.edges ≤ crossings other network.now.edges) }
    ensures wrong { IfErr result (λ wrong. IsWrong network.now c.now.inside c.now.flow wrong) }
{
    let flow = c.flow.items();
    let crossings = check_cut(network, c, scratch)?;
    if let Some(at) = first_too_large(network.edges.items(), flow) {
        return Err(Wrong::Size(at as u32));
    }
    if let Some(vertex) = first_unbalanced(network, flow, scratch) {
        return Err(Wrong::Conservation(vertex));
    }
    if value(network, flow, scratch) != crossings as i64 {
        return Err(Wrong::Value);
    }
    Ok(())
}
