// The way back from a place of the queue to place 0: how much can go along it, and sending that much.
// The three walks back are loops of their own: an iterator over the places of a way would be a type with laws of its own for three bodies
// of four lines.
ghost use Rattle.std.specs.Prelude.{length, get_or, ◌≡◌, ◌⊎◌, ℕ, ◌+◌, ◌≤◌, ◌<◌, IfSome, unwrap_or};
ghost use Rattle.network.specs.Search.{On, Sent, Kept};
ghost use Rattle.network.specs.Parts.{WayTo, ClearTo, spare_at};

use crate::index::Lines;
use crate::reach::Queue;
use crate::spare::Spare;

impl Queue {
    // The most that can go from place 0 to place `end`, and no more than `limit`.
    pub fn narrowest(&self, lines: &Lines, spare: &Spare, end: usize, limit: usize) -> usize
        requires some { (end < 128) × (1 ≤ limit) }
        requires way { WayTo lines.now self.now end }
        requires passable { (j : ℕ) → 1 ≤ j → j < end + 1 → 1 ≤ spare_at lines.now spare.now self.now j }
        ensures within { (1 ≤ result) × (result ≤ limit) }
        ensures reached { (result ≡ limit) ⊎ ((j : ℕ) × (1 ≤ j) × (j < end + 1) × On self.now.from end j × (spare_at lines.now spare.now self.now j ≡ result)) }
        ensures clear { ClearTo lines.now spare.now self.now result end }
    {
        let mut most = limit;
        let mut j = end;
        while 0 < j {
            let i = self.from[j];
            let spare = spare.over(lines, self.via[j], self.node[i]);
            if spare < most {
                most = spare;
            }
            j = i;
        }
        most
    }

    // The least place on the way to place `end` whose line has nothing to spare, if there is one.
    pub fn first_used(&self, lines: &Lines, spare: &Spare, end: usize) -> Option<usize>
        requires end_place { end < 128 }
        requires way { WayTo lines.now self.now end }
        ensures within { IfSome result (λ used. (1 ≤ used) × (used ≤ end)) }
        ensures used { IfSome result (λ used. spare_at lines.now spare.now self.now used ≡ 0) }
        ensures before { (j : ℕ) → 1 ≤ j → On self.now.from end j → j < unwrap_or result (end + 1) → 1 ≤ spare_at lines.now spare.now self.now j }
    {
        let mut used = None;
        let mut j = end;
        while 0 < j {
            let i = self.from[j];
            let spare = spare.over(lines, self.via[j], self.node[i]);
            if spare == 0 {
                used = Some(j);
            }
            j = i;
        }
        used
    }
}

impl Spare {
    // `amount` goes from place 0 to place `end`.
    pub fn send(&mut self, lines: &Lines, queue: &Queue, end: usize, amount: usize)
        requires end_place { end < 128 }
        requires way { WayTo lines.now queue.now end }
        requires clear { ClearTo lines.now self.old queue.now amount end }
        ensures sent { Sent lines.now.network.firsts.now lines.now.network.seconds.now (get_or queue.now.node 0 0) (get_or queue.now.node end 0) amount self.old.forth self.old.back self.new.forth self.new.back }
        ensures kept { Kept lines.now.network.firsts.now queue.now.node queue.now.via queue.now.from end amount self.old.forth self.old.back self.new.forth self.new.back }
        ensures drain_kept { self.new.drain ≡ self.old.drain }
    {
        let mut j = end;
        while 0 < j {
            let i = queue.from[j];
            self.send_over(lines, queue.via[j], queue.node[i], amount);
            j = i;
        }
    }
}
