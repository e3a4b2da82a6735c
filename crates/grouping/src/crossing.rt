// The rate that splits the stretch between two known levels: of each coarser group that is no finer one the greatest rate at which a
// finer group's cost crosses its own, and of these the least.
ghost use Rattle.std.specs.Prelude.{◌≡◌, ℕ, ◌-◌, ◌≤◌, ◌<◌};
ghost use Rattle.cut.specs.Stated.{stated};
ghost use Rattle.grouping.specs.Stretch.{LabelsBelow, OutsOf, ExtentsOf, rate_at, Greatest, LeastOf, CrossingRate, Apart};

use crate::drains::share_out;
use crate::level::Level;
use cut::plant::Plant;
use cut::rate::{AcceptedRate, Rate};
use rules::DEVICES;

// For each label the signals on lines with exactly one end of it. The like in the drains compares walls and weighs by q.
fn outs_of(plant: &Plant, labels: &[usize; DEVICES]) -> [usize; DEVICES]
    requires { LabelsBelow plant.now.devices labels.now }
    ensures { OutsOf (stated plant.now) labels.now result }
{
    let mut outs = [0usize; DEVICES];
    for l in 0..plant.firsts.len() {
        let h = labels[plant.firsts[l]];
        let k = labels[plant.seconds[l]];
        if h != k {
            outs[h] += plant.signals[l];
            outs[k] += plant.signals[l];
        }
    }
    outs
}

// For each label how many devices have it, and the signals on lines with exactly one end of it: two lists, since `share_out`, which the
// drains use too, gives the one alone.
#[derive(Drop)]
struct Extents {
    sizes: [usize; DEVICES],
    outs: [usize; DEVICES],
}

// The extents of the labels of a plant.
fn extents_of(plant: &Plant, labels: &[usize; DEVICES]) -> Extents
    requires { LabelsBelow plant.now.devices labels.now }
    ensures { ExtentsOf (stated plant.now) labels.now result.sizes result.outs }
{
    Extents {
        sizes: share_out(plant.devices, 1, labels),
        outs: outs_of(plant, labels),
    }
}

// The rate at which the cost of a smaller group crosses that of the larger one around it, or 0 where its out is less.
fn crossing_of(out: usize, size: usize, larger_out: usize, larger_size: usize) -> Rate
    requires { size < larger_size }
    ensures { (result.p ≡ out - larger_out) × (result.q ≡ larger_size - size) }
{
    Rate {
        p: out.saturating_sub(larger_out),
        q: larger_size - size,
    }
}

// Two known levels of a plant, with the extents of their groups.
#[derive(Drop)]
struct Stretch<'a> {
    plant: &'a Plant<'a>,
    finer: &'a Level,
    coarser: &'a Level,
    fine: Extents,
    coarse: Extents,
    ghost finer_below: { LabelsBelow plant.now.devices finer.now.labels },
    ghost coarser_below: { LabelsBelow plant.now.devices coarser.now.labels },
    ghost fine_is: { ExtentsOf (stated plant.now) finer.now.labels fine.sizes fine.outs },
    ghost coarse_is: { ExtentsOf (stated plant.now) coarser.now.labels coarse.sizes coarse.outs },
}

impl<'a> Stretch<'a> {
    // For each coarser label the greatest crossing rate of the finer groups in its group.
    fn greatest(&self) -> [Rate; DEVICES]
        ensures { (h : ℕ) → h < self.now.plant.now.devices → Greatest (stated self.now.plant.now) self.now.finer.now.labels self.now.coarser.now.labels h self.now.plant.now.devices (rate_at result h).p (rate_at result h).q }
    {
        let mut best = [Rate { p: 0, q: 1 }; DEVICES];
        for v in 0..self.plant.devices {
            let f = self.finer.labels[v];
            let h = self.coarser.labels[v];
            if self.fine.sizes[f] < self.coarse.sizes[h] {
                let r = crossing_of(
                    self.fine.outs[f],
                    self.fine.sizes[f],
                    self.coarse.outs[h],
                    self.coarse.sizes[h],
                );
                if best[h].p * r.q < r.p * best[h].q {
                    best[h] = r;
                }
            }
        }
        best
    }

    // The least of these rates over the coarser groups that are no finer ones. It keeps one rate for all of them, where `greatest` keeps one
    // for each label.
    fn least_of(&self, rates: &[Rate; DEVICES]) -> Rate
        requires { (h : ℕ) → h < self.now.plant.now.devices → Greatest (stated self.now.plant.now) self.now.finer.now.labels self.now.coarser.now.labels h self.now.plant.now.devices (rate_at rates.now h).p (rate_at rates.now h).q }
        ensures { LeastOf (stated self.now.plant.now) self.now.finer.now.labels self.now.coarser.now.labels rates.now self.now.plant.now.devices result.p result.q }
    {
        // above every rate, so that the first needs no case of its own: `LeastOf` says so
        let mut least = Rate { p: 1, q: 0 };
        for v in 0..self.plant.devices {
            let f = self.finer.labels[v];
            let h = self.coarser.labels[v];
            if self.fine.sizes[f] < self.coarse.sizes[h] {
                let r = rates[h];
                if r.p * least.q < least.p * r.q {
                    least = r;
                }
            }
        }
        least
    }
}

// The crossing rate between two known levels, in lowest terms.
pub fn crossing(plant: &Plant, finer: &Level, coarser: &Level) -> AcceptedRate
    requires { (ap : ℕ) × (aq : ℕ) × (bp : ℕ) × (bq : ℕ) × Apart (stated plant.now) ap aq bp bq finer.now.labels coarser.now.labels }
    ensures { CrossingRate (stated plant.now) finer.now.labels coarser.now.labels result.p result.q }
{
    let stretch = Stretch {
        plant,
        finer,
        coarser,
        fine: extents_of(plant, &finer.labels),
        coarse: extents_of(plant, &coarser.labels),
    };
    let least = stretch.least_of(&stretch.greatest());
    let r = least.reduce().unwrap();
    AcceptedRate { p: r.p, q: r.q }
}
