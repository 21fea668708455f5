//! Certificates, what can be wrong with one, and why a text is not read.

ghost use Rattle.std.specs.Prelude.{◌≡◌};
ghost use Rattle.hs_cert.specs.declared.certificate.CertError.TheVariants.{NoMemory as no_memory};

use hs_base::{NoMemory, Numbers};
use hs_cut::Flow;

/// What shows that a cut of a network is least.
#[derive(Drop)]
pub struct Certificate {
    /// The vertices inside, which ascend.
    pub inside: Numbers,
    /// What flows over each edge of the network.
    pub flow: Flow,
}

/// The first of the six facts that does not hold, in the order of these variants.
#[derive(Debug, Clone, Copy, PartialEq, Eq)]
pub enum Wrong {
    /// A vertex that must be inside is not.
    Inside,
    /// A vertex that must be outside is inside.
    Outside,
    /// The edge is no slot, and crosses: the first such.
    Slotless(u32),
    /// More flows over the edge than may: the first such.
    Size(u32),
    /// The vertex has no demand, and more flows in than out, or less: the least such.
    Conservation(u32),
    /// What flows out of the vertices that must be inside is not as much as edges cross.
    Value,
}

/// Why a text is not read.
#[derive(Debug, Clone, Copy, PartialEq, Eq)]
pub enum CertError {
    /// The text is no certificate of the network.
    BadCertificate,
    /// Memory ran out.
    NoMemory,
}

impl From<NoMemory> for CertError {
    ghost from_gives = { λ _ e. e ≡ no_memory };

    fn from(_refused: NoMemory) -> CertError {
        CertError::NoMemory
    }
}
