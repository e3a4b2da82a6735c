// The community of a device.
ghost use Rattle.std.specs.Prelude.{◌≡◌, true, cond, eqb, length, get_or, ℕ, ◌≤◌, ◌<◌};
ghost use Rattle.rules.specs.Cut.{size, out};
ghost use Rattle.rules.specs.Community.{community};
ghost use Rattle.rules.specs.Lists.{over};
ghost use Rattle.rules.specs.Numbers.{sum};
ghost use Rattle.cut.specs.Stated.{stated};
ghost use Rattle.cut.specs.Calls.{marks_of, community_told, community_answer, community_marks};

use crate::plant::Plant;
use crate::rate::{AcceptedRate, Rate};
use crate::sets::own_communities;
use rules::{DEVICES, Fault};

// How many devices the community has, and the signals on lines with exactly one end in it.
#[derive(Clone, Copy, Debug, Default, PartialEq, Eq)]
pub struct Extent {
    pub size: usize,
    pub out: usize,
}

// Marks 1 those of the first n devices that d owns, and 0 the others. Its like in `grouping` marks by another test; with the test as a
// closure the contract would be no plainer.
fn mark_owned(n: usize, d: usize, owner: &[usize; DEVICES]) -> [u8; DEVICES]
    requires { n ≤ 128 }
    ensures { (v : ℕ) → v < n → get_or result v 0 ≡ cond (eqb (get_or owner.now v 0) d) 1 0 }
{
    let mut mark = [0u8; DEVICES];
    for v in 0..n {
        mark[v] = u8::from(owner[v] == d);
    }
    mark
}

// How many of the first n devices are marked. A loop, as in the next function, and no `sum()`: that it does not wrap is proved entry by entry.
fn count_marks(n: usize, mark: &[u8; DEVICES]) -> usize
    requires { (n ≤ 128) × ((v : ℕ) → v < n → get_or mark.now v 0 ≤ 1) }
    ensures { result ≡ sum n (λ v. get_or mark.now v 0) }
{
    let mut size = 0;
    for v in 0..n {
        size += usize::from(mark[v]);
    }
    size
}

// The signals on lines whose two ends are marked differently.
fn cut_signals(plant: &Plant, mark: &[u8; DEVICES]) -> usize
    ensures { result ≡ sum (length plant.now.firsts.now) (λ l. cond (eqb (get_or mark.now (get_or plant.now.firsts.now l 0) 0) (get_or mark.now (get_or plant.now.seconds.now l 0) 0)) 0 (get_or plant.now.signals.now l 0)) }
{
    let mut out = 0;
    for l in 0..plant.firsts.len() {
        let a = plant.firsts[l];
        let b = plant.seconds[l];
        if mark[a] != mark[b] {
            out += plant.signals[l];
        }
    }
    out
}

// The community of a device at an accepted rate.
fn fill_community(plant: &Plant, rate: AcceptedRate, device: usize, marks: &mut [u8]) -> Extent
    requires { (device < plant.now.devices) × (plant.now.devices ≤ length marks.old) }
    ensures size_is { result.size ≡ size (stated plant.now) (community (stated plant.now) rate.p rate.q device) }
    ensures out_is { result.out ≡ out (stated plant.now).lines (community (stated plant.now) rate.p rate.q device) }
    ensures marks_filled { marks.new ≡ over (marks_of plant.now.devices (community (stated plant.now) rate.p rate.q device)) marks.old }
{
    let n = plant.devices;
    let mut wanted = [0u8; DEVICES];
    wanted[device] = 1;
    let mut owner = [0usize; DEVICES];
    own_communities(plant, rate, &wanted, &mut owner);
    let mark = mark_owned(n, device, &owner);
    marks[..n].copy_from_slice(&mark[..n]);
    Extent {
        size: count_marks(n, &mark),
        out: cut_signals(plant, &mark),
    }
}

// The community of a device at a rate: fills 1 or 0 for each device, and answers the community's size and out.
// The plant comes as n and three lists, wrong ones too: document 01, "A plant is n with three lists of one length".
pub fn community(
    n: usize,
    firsts: &[usize],
    seconds: &[usize],
    signals: &[usize],
    rate: Rate,
    device: usize,
    marks: &mut [u8],
) -> Result<Extent, Fault>
    ensures answer { community_told result ≡ community_answer n firsts.now seconds.now signals.now rate.p rate.q device marks.old }
    ensures marks_filled { marks.new ≡ community_marks n firsts.now seconds.now signals.now rate.p rate.q device marks.old }
{
    let plant = Plant::new(n, firsts, seconds, signals)?;
    let rate = rate.check()?;
    if n <= device {
        return Err(Fault::NoSuchDevice);
    }
    let short = marks.len() < n;
    if short {
        return Err(Fault::ShortList);
    }
    Ok(fill_community(&plant, rate, device, marks))
}
