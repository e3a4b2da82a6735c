// Levels: the grouping at a rate as a value, and at a rate between those of two known levels.
ghost use Rattle.std.specs.Prelude.{◌≡◌, ℕ, ◌≤◌, ◌<◌, get_or, replicate};
ghost use Rattle.rules.specs.Groups.{table, distinct};
ghost use Rattle.rules.specs.Lists.{over};
ghost use Rattle.cut.specs.Stated.{stated};
ghost use Rattle.grouping.specs.Level.{IsLevel, first_with, Between};

use crate::between::owners_between;
use crate::labels::fill;
use cut::owners::owners_at;
use cut::plant::Plant;
use cut::rate::AcceptedRate;
use rules::DEVICES;

// A level: for each device the lowest device of its group and one whose community the group is, and the number of groups.
#[derive(Drop)]
pub struct Level {
    pub labels: [usize; DEVICES],
    pub owner: [usize; DEVICES],
    pub groups: usize,
}

// The labels from the owners, and how many groups there are.
fn level_of(n: usize, owner: [usize; DEVICES]) -> Level
    requires { (n ≤ 128) × ((v : ℕ) → v < n → get_or owner v 0 < n) }
    ensures { (result.owner ≡ owner) × (result.labels ≡ over (table n (first_with n owner)) (replicate 128 0)) × (result.groups ≡ distinct (table n (first_with n owner))) }
{
    let mut labels = [0usize; DEVICES];
    let groups = fill(n, &owner, &mut labels);
    Level {
        labels,
        owner,
        groups,
    }
}

// The level at a rate.
pub fn level_at(plant: &Plant, rate: AcceptedRate) -> Level
    ensures { IsLevel (stated plant.now) rate.p rate.q result }
{
    level_of(plant.devices, owners_at(plant, rate))
}

// The level at a rate between those of two known levels: one search for each group of the finer, whose owners are the nodes, inside the
// coarser's group, whose labels are the walls. The two levels are no struct: each function over them asks another fact of the two.
pub fn level_between(plant: &Plant, rate: AcceptedRate, finer: &Level, coarser: &Level) -> Level
    requires { Between (stated plant.now) rate.p rate.q finer.now.owner coarser.now.labels }
    ensures { IsLevel (stated plant.now) rate.p rate.q result }
{
    let between = owners_between(plant, rate, &finer.owner, &coarser.labels);
    level_of(plant.devices, between)
}
