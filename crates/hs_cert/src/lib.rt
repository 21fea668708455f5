//! Certificates: a cut with a flow, which show together that the cut is least, their text, and a checker that trusts
//! nobody. `specs/Certificates.antt` says what is right, `specs/Texts.antt` how a certificate is written.
#![tactic(auto)]

mod certificate;
mod flags;
mod flows;
mod lines;
mod printer;
mod reader;
mod verifier;

pub use certificate::{CertError, Certificate, Wrong};
pub use printer::print;
pub use reader::read;
pub use verifier::verify;
