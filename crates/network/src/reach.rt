// The search: breadth first from a node over the lines with something to spare, until a node with drain left is found.
ghost use Rattle.std.specs.Prelude.{ℕ, length, get_or, set, cond, eqb, ◌≡◌, true, false, ◌+◌, ◌≤◌, ◌<◌};
ghost use Rattle.network.specs.Search.{Marks, touches};

use crate::index::Lines;
use crate::spare::Spare;
use rules::DEVICES;

// Where a search stands. Of its places the first `count` are taken: `node` is the queue; `via` and `from` say of each place but 0 by
// which line and from which place its node was reached; and `mark` is 1 for the nodes in the queue. `place` is the one whose lines are
// looked at, and `rest` its next line, if one is left. Marks, queue and predecessors are an array each, by value: document 01 fixes that
// form.
#[derive(Drop)]
pub struct Queue {
    pub node: [usize; DEVICES],
    pub via: [usize; DEVICES],
    pub from: [usize; DEVICES],
    pub mark: [u8; DEVICES],
    pub count: usize,
    pub place: usize,
    pub rest: Option<usize>,
    pub ghost rooms: { (length node ≡ 128) × (length via ≡ 128) × (length from ≡ 128) × (length mark ≡ 128) },
    pub ghost few: { count ≤ 128 },
    pub ghost nodes: { (j : ℕ) → j < count → get_or node j 0 < 128 },
}

// The marks of a queue in which node d alone stands.
fn mark_of(d: usize) -> [u8; DEVICES]
    requires { d < 128 }
    ensures { (v : ℕ) → v < 128 → get_or result v 0 ≡ cond (eqb v d) 1 0 }
{
    let mut mark = [0; DEVICES];
    mark[d] = 1;
    mark
}

impl Queue {
    ghost use Rattle.network.specs.Parts.{Scans, Stops, Stands, Finds, Ends};
    ghost use Rattle.network.specs.declared.spare.Spare.{Spare};

    // One in which no node is reached.
    pub fn new() -> Queue {
        Queue {
            node: [0; DEVICES],
            via: [0; DEVICES],
            from: [0; DEVICES],
            mark: [0; DEVICES],
            count: 0,
            place: 0,
            rest: None,
        }
    }

    // Node d alone is reached: it stands at place 0, and it alone is marked.
    pub fn begin(&mut self, lines: &Lines, d: usize)
        requires { d < 128 }
        ensures root { get_or self.new.node 0 0 ≡ d }
        ensures standing { (spare : Spare) → get_or spare.drain d 0 ≡ 0 → Stands lines.now spare d self.new }
    {
        self.mark = mark_of(d);
        self.node[0] = d;
        self.count = 1;
        self.place = 0;
        self.rest = lines.last_of(d);
    }

    // The nodes from place `cut` on are no longer reached.
    pub fn unmark(&mut self, cut: usize)
        requires place { cut ≤ self.old.count }
        requires marks { Marks self.old.node self.old.mark self.old.count }
        ensures marks_after { Marks self.new.node self.new.mark cut }
        ensures count_new { (self.new.count ≡ cut) × (self.new.place ≡ self.old.place) }
        ensures kept { (self.new.node ≡ self.old.node) × (self.new.via ≡ self.old.via) × (self.new.from ≡ self.old.from) }
    {
        for j in (cut..self.count).rev() {
            self.mark[self.node[j]] = 0;
        }
        self.count = cut;
    }

    // Node w is reached over line l of the node whose lines are looked at.
    fn push(&mut self, w: usize, l: usize)
        requires room { self.old.count < 128 }
        requires device { w < 128 }
        ensures node_new { self.new.node ≡ set self.old.node self.old.count w }
        ensures via_new { self.new.via ≡ set self.old.via self.old.count l }
        ensures from_new { self.new.from ≡ set self.old.from self.old.count self.old.place }
        ensures mark_new { self.new.mark ≡ set self.old.mark w 1 }
        ensures count_new { (self.new.count ≡ self.old.count + 1) × (self.new.place ≡ self.old.place) }
    {
        self.mark[w] = 1;
        self.node[self.count] = w;
        self.via[self.count] = l;
        self.from[self.count] = self.place;
        self.count += 1;
    }

    // Line l of the node whose lines are looked at: what it leads to is reached. Whether that is a node with drain left.
    fn look(&mut self, lines: &Lines, spare: &Spare, l: usize) -> bool
        requires line { (self.old.place < self.old.count) × (l < length lines.now.network.firsts.now) }
        requires own { touches lines.now.network.firsts.now lines.now.network.seconds.now l (get_or self.old.node self.old.place 0) ≡ true }
        requires scan { Scans lines.now spare.now (get_or self.old.node 0 0) self.old self.old.place (l + 1) }
        ensures scan_after { result ≡ false → Scans lines.now spare.now (get_or self.old.node 0 0) self.new self.new.place l }
        ensures found { result ≡ true → Stops lines.now spare.now (get_or self.old.node 0 0) self.new self.new.place l }
        ensures kept { (self.old.count ≤ self.new.count) × (self.new.place ≡ self.old.place) × (get_or self.new.node self.new.place 0 ≡ get_or self.old.node self.old.place 0) }
    {
        let u = self.node[self.place];
        let left = spare.over(lines, l, u);
        if left == 0 {
            return false;
        }
        let w = lines.far_end(l, u);
        if self.mark[w] != 0 {
            return false;
        }
        self.push(w, l);
        0 < spare.drain[w]
    }

    // The lines that are left of the node whose lines are looked at, until a node with drain left is reached.
    fn spread(&mut self, lines: &Lines, spare: &Spare) -> bool
        requires place_there { self.old.place < self.old.count }
        requires standing { Stands lines.now spare.now (get_or self.old.node 0 0) self.old }
        ensures scan { result ≡ false → Scans lines.now spare.now (get_or self.old.node 0 0) self.new (self.old.place + 1) (length lines.now.network.firsts.now) }
        ensures found { result ≡ true → Finds lines.now spare.now (get_or self.old.node 0 0) self.new }
        ensures kept { self.new.place ≡ self.old.place }
    {
        let u = self.node[self.place];
        'lines: while let Some(l) = self.rest {
            let found = self.look(lines, spare, l);
            self.rest = lines.before(u, l);
            if found {
                return true;
            }
        }
        false
    }

    // Whether a node with drain left can be reached; where none can, all that can be reached is marked. The search goes on where it stands.
    pub fn search(&mut self, lines: &Lines, spare: &Spare) -> bool
        requires { Stands lines.now spare.now (get_or self.old.node 0 0) self.old }
        ensures none { result ≡ false → Ends lines.now spare.now (get_or self.old.node 0 0) self.new }
        ensures found { result ≡ true → Finds lines.now spare.now (get_or self.old.node 0 0) self.new }
    {
        // the queue grows meanwhile
        'queue: while self.place < self.count {
            if self.spread(lines, spare) {
                return true;
            }
            self.place += 1;
            self.rest = if self.place < self.count {
                lines.last_of(self.node[self.place])
            } else {
                None
            };
        }
        false
    }
}
