// What can still go over the lines of a network, and from its nodes to the added vertex.
ghost use Rattle.std.specs.Prelude.{ℕ, ◌≡◌, ◌+◌, ◌≤◌, ◌<◌, ◌^◌, length, get_or};
ghost use Rattle.network.specs.Search.{spare_from_of, forth_after, back_after};

use crate::index::Lines;
use crate::judge::Network;
use rules::{DEVICES, LINES};

// Of each line what can go from its first end to its second, and the other way; and of each node its drain. Two lists of one entry per
// line, and no list of pairs: one signed number per line is to say both (document 01, "Each place and its form", at the mark (02)).
#[derive(Drop)]
pub struct Spare {
    pub forth: [usize; LINES],
    pub back: [usize; LINES],
    pub drain: [usize; DEVICES],
    pub ghost rooms: { (length forth ≡ 1024) × (length back ≡ 1024) × (length drain ≡ 128) },
    pub ghost small: { (l : ℕ) → get_or forth l 0 + get_or back l 0 < 2 ^ 63 },
}

// The first entries of a list become those of another.
fn open(places: &mut [usize], list: &[usize])
    requires { length list.now ≤ length places.old }
    ensures opened { (i : ℕ) → i < length list.now → get_or places.new i 0 ≡ get_or list.now i 0 }
    ensures kept { (i : ℕ) → length list.now ≤ i → get_or places.new i 0 ≡ get_or places.old i 0 }
{
    places[..list.len()].copy_from_slice(list);
}

impl Spare {
    ghost use Rattle.network.specs.Parts.{Sends};

    // One over which nothing can go.
    pub fn new() -> Spare {
        Spare {
            forth: [0; LINES],
            back: [0; LINES],
            drain: [0; DEVICES],
        }
    }

    // Each line has its width to spare, both ways, and each node its drain, but the start: its own has gone, for it is in every set. The
    // lists are filled where they stand, as any other search left them.
    pub fn fill(&mut self, network: &Network, start: usize)
        requires { start < network.now.nodes }
        ensures sends { Sends network.now self.new start }
        ensures dry { get_or self.new.drain start 0 ≡ 0 }
    {
        open(&mut self.forth, network.widths);
        open(&mut self.back, network.widths);
        open(&mut self.drain, &network.drains[..network.nodes]);
        self.drain[start] = 0;
    }

    // What can still go over line l out of node u, one of its ends. `far_end` chooses likewise, between lists of another struct.
    #[tactic(auto, unfolding(crate::specs::Search::spare_from_of))]
    pub fn over(&self, lines: &Lines, l: usize, u: usize) -> usize
        requires { l < length lines.now.network.firsts.now }
        ensures { result ≡ spare_from_of lines.now.network.firsts.now self.now.forth self.now.back l u }
    {
        if lines.network.firsts[l] == u {
            return self.forth[l];
        }
        self.back[l]
    }

    // `amount` goes over line l out of node u, one of its ends.
    #[tactic(auto, unfolding(crate::specs::Search::spare_from_of, crate::specs::Search::forth_after, crate::specs::Search::back_after))]
    pub fn send_over(&mut self, lines: &Lines, l: usize, u: usize, amount: usize)
        requires line { l < length lines.now.network.firsts.now }
        requires enough { amount ≤ spare_from_of lines.now.network.firsts.now self.old.forth self.old.back l u }
        ensures forth_new { self.new.forth ≡ forth_after lines.now.network.firsts.now self.old.forth l u amount }
        ensures back_new { self.new.back ≡ back_after lines.now.network.firsts.now self.old.back l u amount }
        ensures drain_kept { self.new.drain ≡ self.old.drain }
    {
        if lines.network.firsts[l] == u {
            self.forth[l] -= amount;
            self.back[l] += amount;
        } else {
            self.forth[l] += amount;
            self.back[l] -= amount;
        }
    }
}
