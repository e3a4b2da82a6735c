// The network part: the least set of a network that holds a node, for many nodes. It knows no plant and no rate.
#![tactic(auto)]

pub mod call;
mod index;
mod judge;
mod least;
mod owners;
mod path;
mod reach;
mod spare;
