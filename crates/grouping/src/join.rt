// The lines of the network between two levels. Its nodes are the finer level's groups, each by the number of its owner; a line of the plant
// between two nodes of one wall, which is a group of the coarser level, joins them, and is q times its signals wide.
ghost use Rattle.std.specs.Prelude.{◌≡◌, ◌+◌, ◌≤◌, ◌<◌, length, take};
ghost use Rattle.grouping.specs.Between.{WidthsBelow, LinePut, Joined};

use crate::nodes::Nodes;
use cut::rate::AcceptedRate;
use rules::LINES;

// The lines of a network: of each its lower end, its upper end and its width, in three lists, as `least_sets` takes them.
#[derive(Drop)]
pub struct Lines {
    pub lower: [usize; LINES],
    pub upper: [usize; LINES],
    pub widths: [usize; LINES],
    pub count: usize,
    pub ghost most: { count ≤ 1024 },
}

impl Lines {
    // No lines.
    pub fn new() -> Lines {
        Lines {
            lower: [0; LINES],
            upper: [0; LINES],
            widths: [0; LINES],
            count: 0,
        }
    }

    // A line between the nodes x and y, of which x is the lower one, is added: to the last line where that joins the same two nodes, and
    // otherwise as one more.
    fn put_rising(&mut self, width: usize, x: usize, y: usize)
        requires { (x < y) × (width ≤ 65535000) × (self.old.count < 1024) × WidthsBelow self.old.count self.old.widths }
        ensures { LinePut width x y self.old.lower self.old.upper self.old.widths self.old.count self.new.lower self.new.upper self.new.widths self.new.count }
    {
        let m = self.count;
        if 0 < m {
            let last = m - 1;
            if self.lower[last] == x && self.upper[last] == y {
                self.widths[last] += width;
                return;
            }
        }
        self.lower[m] = x;
        self.upper[m] = y;
        self.widths[m] = width;
        self.count = m + 1;
    }

    // The same of two different nodes in either order.
    fn put(&mut self, width: usize, x: usize, y: usize)
        requires { (x ≡ y → ⊥) × (width ≤ 65535000) × (self.old.count < 1024) × WidthsBelow self.old.count self.old.widths }
        ensures { LinePut width x y self.old.lower self.old.upper self.old.widths self.old.count self.new.lower self.new.upper self.new.widths self.new.count }
    {
        if x < y {
            self.put_rising(width, x, y);
        } else {
            self.put_rising(width, y, x);
        }
    }

    // Lower ends, upper ends and widths, an entry for each line.
    pub fn lists(&self) -> (&[usize], &[usize], &[usize])
        ensures lower { (result.0.now ≡ take self.now.count self.now.lower) × (length result.0.now ≡ self.now.count) }
        ensures upper { (result.1.now ≡ take self.now.count self.now.upper) × (length result.1.now ≡ self.now.count) }
        ensures widths { (result.2.now ≡ take self.now.count self.now.widths) × (length result.2.now ≡ self.now.count) }
    {
        let m = self.count;
        (&self.lower[..m], &self.upper[..m], &self.widths[..m])
    }
}

// Line l of the plant, after the lines below it have made lines of the network: it is left out, or put to them.
fn join_line(nodes: &Nodes, rate: AcceptedRate, l: usize, lines: &mut Lines)
    requires line { l < length nodes.now.plant.now.firsts.now }
    requires joined { Joined nodes.now.plant.now.devices nodes.now.plant.now.firsts.now nodes.now.plant.now.seconds.now nodes.now.plant.now.signals.now rate.q nodes.now.node.now nodes.now.wall.now l lines.old.lower lines.old.upper lines.old.widths lines.old.count }
    ensures { Joined nodes.now.plant.now.devices nodes.now.plant.now.firsts.now nodes.now.plant.now.seconds.now nodes.now.plant.now.signals.now rate.q nodes.now.node.now nodes.now.wall.now (l + 1) lines.new.lower lines.new.upper lines.new.widths lines.new.count }
{
    let plant = nodes.plant;
    let x = nodes.node[plant.firsts[l]];
    let y = nodes.node[plant.seconds[l]];
    if x == y {
        return;
    }
    if nodes.wall[x] == nodes.wall[y] {
        lines.put(rate.q * plant.signals[l], x, y);
    }
}

// The lines of the network, in the place of those that stood there. They are filled where they stand: lists handed back by value would be
// copied.
pub fn join_lines(nodes: &Nodes, rate: AcceptedRate, lines: &mut Lines)
    ensures { Joined nodes.now.plant.now.devices nodes.now.plant.now.firsts.now nodes.now.plant.now.seconds.now nodes.now.plant.now.signals.now rate.q nodes.now.node.now nodes.now.wall.now (length nodes.now.plant.now.firsts.now) lines.new.lower lines.new.upper lines.new.widths lines.new.count }
{
    lines.count = 0;
    for l in 0..nodes.plant.firsts.len() {
        join_line(nodes, rate, l, lines);
    }
}
