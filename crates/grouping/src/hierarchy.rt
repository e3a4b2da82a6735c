// The whole hierarchy: every grouping that occurs at a positive rate, finest to coarsest, with the exact rates where each stops.
ghost use Rattle.std.specs.Prelude.{◌≡◌, ◌+◌, ◌*◌, ◌≤◌, ◌<◌, length, get_or};
ghost use Rattle.rules.specs.Groups.{table};
ghost use Rattle.cut.specs.Stated.{stated};
ghost use Rattle.grouping.specs.Calls.{row_of, levels_told, HierarchyIs, Listed};
ghost use Rattle.grouping.specs.Stretch.{SpanFrom, Ready, KeptOutside, SameLists, Settled, Searched};

use crate::crossing::crossing;
use crate::level::{Level, level_at, level_between};
use cut::plant::Plant;
use cut::rate::AcceptedRate;
use rules::{DEVICES, Fault};

// The lists that the call fills: the labels, and the two numbers of each low rate. That they have room is no ghost field: today's Rattle
// has none beside a `&mut`.
#[derive(Drop)]
struct Lent<'a> {
    labels: &'a mut [usize],
    low_p: &'a mut [usize],
    low_q: &'a mut [usize],
}

// Row k of the labels becomes a level. Entry by entry, and no `copy_from_slice`: with that the archive for C would need C's memmove too.
fn put_row(n: usize, level: &[usize; DEVICES], k: usize, labels: &mut [usize])
    requires { (n ≤ 128) × (k < n) × (n * n ≤ length labels.old) }
    ensures kept_outside { KeptOutside (k * n) (k * n + n) labels.old labels.new }
    ensures row_filled { row_of n labels.new k ≡ table n (λ v. get_or level.now v 0) }
{
    let start = k * n;
    for v in 0..n {
        labels[start + v] = level[v];
    }
}

impl Lent<'_> {
    // Nothing lies between the level of row `at` and the coarser one: the given rate is the low rate of the level of row `at`, and the
    // coarser one's row, which is answered, is the next.
    fn settle(&mut self, n: usize, coarser: &Level, at: usize, rate: AcceptedRate) -> usize
        requires place_there { (n ≤ 128) × (at + 1 < n) }
        requires room { (n * n ≤ length self.old.labels.now) × (n ≤ length self.old.low_p.now) × (n ≤ length self.old.low_q.now) }
        ensures same_lists { SameLists self.old self.new }
        ensures settled { Settled n coarser.now.labels at result rate.p rate.q self.old.labels.now self.old.low_p.now self.old.low_q.now self.new.labels.now self.new.low_p.now self.new.low_q.now }
    {
        self.low_p[at] = rate.p;
        self.low_q[at] = rate.q;
        put_row(n, &coarser.labels, at + 1, self.labels);
        at + 1
    }
}

// The levels between two known ones. The finer, whose rate is `high`, stands in row `at`; the coarser comes to stand in the row that is
// answered, and the low rate of each level from `at` to the one before it is filled in. The stretch is split at the crossing rate, and
// each half treated likewise, until the grouping there is the finer one itself: at the finer one's own rate that is known.
fn search(
    plant: &Plant,
    finer: &Level,
    high: AcceptedRate,
    coarser: &Level,
    at: usize,
    lent: &mut Lent,
) -> usize
    requires span_from { SpanFrom (stated plant.now) high.p high.q finer.now.labels finer.now.owner finer.now.groups coarser.now.labels coarser.now.groups }
    requires ready { Ready plant.now.devices finer.now.labels finer.now.groups at lent.old.labels.now lent.old.low_p.now lent.old.low_q.now }
    ensures same_lists { SameLists lent.old lent.new }
    ensures searched { Searched plant.now.devices (stated plant.now) finer.now.labels finer.now.owner finer.now.groups coarser.now.labels coarser.now.groups at result lent.old.labels.now lent.old.low_p.now lent.old.low_q.now lent.new.labels.now lent.new.low_p.now lent.new.low_q.now }
{
    let rate = crossing(plant, finer, coarser);
    let known = rate == high;
    if known {
        return lent.settle(plant.devices, coarser, at, high);
    }
    let middle = level_between(plant, rate, finer, coarser);
    if middle.groups == finer.groups {
        return lent.settle(plant.devices, coarser, at, rate);
    }
    let next = search(plant, finer, high, &middle, at, lent);
    search(plant, &middle, rate, coarser, next, lent)
}

// The hierarchy of an accepted plant: the levels at the largest and at the least rate, and all between them.
fn fill_hierarchy(plant: &Plant, lent: &mut Lent) -> usize
    requires { (plant.now.devices * plant.now.devices ≤ length lent.old.labels.now) × (plant.now.devices ≤ length lent.old.low_p.now) × (plant.now.devices ≤ length lent.old.low_q.now) }
    ensures same_lists { SameLists lent.old lent.new }
    ensures listed { Listed (stated plant.now) result lent.old.labels.now lent.old.low_p.now lent.old.low_q.now lent.new.labels.now lent.new.low_p.now lent.new.low_q.now }
{
    let finest = level_at(plant, AcceptedRate::LARGEST);
    let coarsest = level_at(plant, AcceptedRate::LEAST);
    put_row(plant.devices, &finest.labels, 0, lent.labels);
    if finest.groups == coarsest.groups {
        return 1;
    }
    let last = search(plant, &finest, AcceptedRate::LARGEST, &coarsest, 0, lent);
    last + 1
}

// The hierarchy of a plant: fills n labels for each level, level after level, and the low rate of each but the last; answers the number
// of levels.
// The plant comes as n and three lists, wrong ones too: document 01, "A plant is n with three lists of one length"; and "the low rates as
// two lists".
pub fn hierarchy(
    n: usize,
    firsts: &[usize],
    seconds: &[usize],
    signals: &[usize],
    labels: &mut [usize],
    low_p: &mut [usize],
    low_q: &mut [usize],
) -> Result<usize, Fault>
    ensures { HierarchyIs n firsts.now seconds.now signals.now labels.old low_p.old low_q.old (levels_told result) labels.new low_p.new low_q.new }
{
    let plant = Plant::new(n, firsts, seconds, signals)?;
    if labels.len() < n * n || low_p.len() < n || low_q.len() < n {
        return Err(Fault::ShortList);
    }
    let mut lent = Lent {
        labels,
        low_p,
        low_q,
    };
    Ok(fill_hierarchy(&plant, &mut lent))
}
