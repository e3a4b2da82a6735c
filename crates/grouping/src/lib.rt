// The grouping part: the groups at a rate, the whole hierarchy, one level's row, and the joining rate of two devices. It stands on what
// the cut part promises.
#![tactic(auto)]

mod between;
mod crossing;
mod drains;
pub mod grouping;
pub mod hierarchy;
mod join;
pub mod joining;
mod labels;
mod level;
mod nodes;
pub mod row;
