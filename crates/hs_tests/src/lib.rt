//! Tests of libraries that are no texts, over their public functions: a crate that is proved with its tests is proved twice, so they are
//! above. It exports nothing.
#![tactic(auto)]

#[cfg(test)]
mod base;
#[cfg(test)]
mod built_in_table;
#[cfg(test)]
mod certificates;
#[cfg(test)]
mod cuts;
#[cfg(test)]
mod heap;
#[cfg(test)]
mod host;
#[cfg(test)]
mod networks;
#[cfg(test)]
mod straight;
#[cfg(test)]
mod tables;
