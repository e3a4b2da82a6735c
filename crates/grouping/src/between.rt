// The owners at a rate between those of two known levels, by a network whose nodes are the groups of the finer, each by the number of its
// owner; the groups of the coarser are the walls.
ghost use Rattle.std.specs.Prelude.{◌≡◌, ℕ, ◌≤◌, ◌<◌, get_or};
ghost use Rattle.rules.specs.Sweep.{wanted_in};
ghost use Rattle.cut.specs.Stated.{stated};
ghost use Rattle.grouping.specs.Level.{owns_itself, Between, Swept};

use crate::drains::drains_of;
use crate::join::{Lines, join_lines};
use crate::nodes::Nodes;
use cut::plant::Plant;
use cut::rate::AcceptedRate;
use network::call::least_sets;
use rules::DEVICES;

// Marks the nodes: the devices that own themselves. (The like in `cut` marks by another test.)
fn marked(n: usize, owner: &[usize; DEVICES]) -> [u8; DEVICES]
    requires { n ≤ 128 }
    ensures { (v : ℕ) → v < n → wanted_in result v ≡ owns_itself owner.now v }
{
    let mut wanted = [0u8; DEVICES];
    for v in 0..n {
        wanted[v] = u8::from(owner[v] == v);
    }
    wanted
}

// Each device gets what its node has.
fn of_nodes(nodes: &Nodes, held: &[usize; DEVICES]) -> [usize; DEVICES]
    ensures { (v : ℕ) → v < nodes.now.plant.now.devices → get_or result v 0 ≡ get_or held.now (get_or nodes.now.node.now v 0) 0 }
{
    let mut owner = [0usize; DEVICES];
    for v in 0..nodes.plant.devices {
        owner[v] = held[nodes.node[v]];
    }
    owner
}

// The owners at a rate between those of two known levels: `node` has the owners of the finer, `wall` the labels of the coarser.
pub fn owners_between(
    plant: &Plant,
    rate: AcceptedRate,
    node: &[usize; DEVICES],
    wall: &[usize; DEVICES],
) -> [usize; DEVICES]
    requires { Between (stated plant.now) rate.p rate.q node.now wall.now }
    ensures { Swept (stated plant.now) rate.p rate.q result }
{
    let nodes = Nodes { plant, node, wall };
    let mut lines = Lines::new();
    join_lines(&nodes, rate, &mut lines);
    let drains = drains_of(&nodes, rate);
    let wanted = marked(plant.devices, node);
    let mut held = [0usize; DEVICES];
    let (lower, upper, widths) = lines.lists();
    // it is a network by its contract, so it is taken
    least_sets(
        plant.devices,
        lower,
        upper,
        widths,
        &drains,
        &wanted,
        &mut held,
    );
    of_nodes(&nodes, &held)
}
