// The joining rate of two devices.
ghost use Rattle.std.specs.Prelude.{◌≡◌, ◌<◌, get_or};
ghost use Rattle.rules.specs.Hierarchy.{JoinsAt};
ghost use Rattle.cut.specs.Stated.{stated};
ghost use Rattle.grouping.specs.Calls.{joining_told, JoiningIs};
ghost use Rattle.grouping.specs.Stretch.{SomeLevels};

use crate::crossing::crossing;
use crate::level::{Level, level_at, level_between};
use cut::plant::Plant;
use cut::rate::{AcceptedRate, Rate};
use rules::Fault;

// The joining rate of two devices that share no group of the finer and one of the coarser of two known levels: of the two halves of the
// stretch the one in which they join is searched.
fn join_between(plant: &Plant, finest: Level, coarsest: Level, one: usize, other: usize) -> Rate
    requires devices { (one < plant.now.devices) × (other < plant.now.devices) }
    requires some_levels { SomeLevels (stated plant.now) finest coarsest }
    requires parted { (get_or finest.labels one 0 ≡ get_or finest.labels other 0 → ⊥) × (get_or coarsest.labels one 0 ≡ get_or coarsest.labels other 0) }
    ensures { JoinsAt (stated plant.now) one other result.p result.q }
{
    let mut finer = finest;
    let mut coarser = coarsest;
    loop {
        let rate = crossing(plant, &finer, &coarser);
        let middle = level_between(plant, rate, &finer, &coarser);
        if middle.groups == finer.groups {
            return Rate::from(rate);
        }
        if middle.labels[one] == middle.labels[other] {
            coarser = middle;
        } else {
            finer = middle;
        }
    }
}

// The joining rate of two devices of a plant, in lowest terms.
// The plant comes as n and three lists, wrong ones too: document 01, "A plant is n with three lists of one length".
pub fn joining_rate(
    n: usize,
    firsts: &[usize],
    seconds: &[usize],
    signals: &[usize],
    one: usize,
    other: usize,
) -> Result<Rate, Fault>
    ensures { JoiningIs n firsts.now seconds.now signals.now one other (joining_told result) }
{
    let plant = Plant::new(n, firsts, seconds, signals)?;
    if n <= one || n <= other {
        return Err(Fault::NoSuchDevice);
    }
    if one == other {
        return Err(Fault::SameDevice);
    }
    let finest = level_at(&plant, AcceptedRate::LARGEST);
    let coarsest = level_at(&plant, AcceptedRate::LEAST);
    if coarsest.labels[one] != coarsest.labels[other] {
        return Err(Fault::NeverJoin);
    }
    Ok(join_between(&plant, finest, coarsest, one, other))
}
