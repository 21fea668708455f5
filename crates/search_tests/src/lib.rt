//! Tests of `hs_search`, over its public functions. It exports nothing.
#![tactic(auto)]

#[cfg(test)]
mod helper;
#[cfg(test)]
mod many;
