// The drains of the network between two levels: of each node p for each of its devices, and q times the signals on their lines to another wall.
ghost use Rattle.std.specs.Prelude.{◌≤◌};
ghost use Rattle.cut.specs.Stated.{stated};
ghost use Rattle.grouping.specs.Between.{NodesBelow, Shared, Drained};

use crate::nodes::Nodes;
use cut::rate::AcceptedRate;
use rules::DEVICES;

// Each node's share: p for each of the n devices that it stands for.
pub fn share_out(n: usize, p: usize, node: &[usize; DEVICES]) -> [usize; DEVICES]
    requires { (n ≤ 128) × NodesBelow n node.now × (p ≤ 100000000) }
    ensures { Shared n p node.now result }
{
    let mut shares = [0usize; DEVICES];
    for v in 0..n {
        shares[node[v]] += p;
    }
    shares
}

// The drains of the nodes.
pub fn drains_of(nodes: &Nodes, rate: AcceptedRate) -> [usize; DEVICES]
    ensures { Drained (stated nodes.now.plant.now) rate.p rate.q nodes.now.node.now nodes.now.wall.now result }
{
    let plant = nodes.plant;
    let mut drains = share_out(plant.devices, rate.p, nodes.node);
    for l in 0..plant.firsts.len() {
        let x = nodes.node[plant.firsts[l]];
        let y = nodes.node[plant.seconds[l]];
        if nodes.wall[x] != nodes.wall[y] {
            let width = rate.q * plant.signals[l];
            drains[x] += width;
            drains[y] += width;
        }
    }
    drains
}
