// The cut part: rates, the check of a plant, and the communities of its devices.
#![tactic(auto)]

pub mod check;
pub mod community;
pub mod owners;
pub mod plant;
pub mod rate;
mod sets;
