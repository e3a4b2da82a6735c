// The nodes of the network between two levels: the finer level's groups, each by the number of its owner. The coarser level's groups are the
// walls.
ghost use Rattle.grouping.specs.Between.{NodesBelow};

use cut::plant::Plant;
use rules::DEVICES;

// For each device of a plant its node, and for each node its wall.
#[derive(Clone, Copy)]
pub struct Nodes<'a> {
    pub plant: &'a Plant<'a>,
    pub node: &'a [usize; DEVICES],
    pub wall: &'a [usize; DEVICES],
    pub ghost below: { NodesBelow plant.now.devices node.now },
}
