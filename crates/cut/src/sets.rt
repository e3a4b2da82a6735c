// The communities of many devices: the plant as a network, in which each line is q times its signals wide and each device has a drain of p.
ghost use Rattle.std.specs.Prelude.{◌≡◌, true, length, get_or, ℕ, ◌*◌, ◌≤◌, ◌<◌};
ghost use Rattle.rules.specs.Community.{community};
ghost use Rattle.rules.specs.Groups.{table};
ghost use Rattle.rules.specs.Lists.{over};
ghost use Rattle.rules.specs.Sweep.{sweep, wanted_in};
ghost use Rattle.cut.specs.Stated.{stated};

use crate::plant::Plant;
use crate::rate::AcceptedRate;
use network::call::least_sets;
use rules::{DEVICES, LINES};

// Each line's width: q times its signals.
fn widen(signals: &[usize], q: usize, widths: &mut [usize])
    requires room { (length signals.now ≤ length widths.old) × (q ≤ 1000) }
    requires small { (l : ℕ) → l < length signals.now → get_or signals.now l 0 ≤ 65535 }
    ensures { widths.new ≡ over (table (length signals.now) (λ l. q * get_or signals.now l 0)) widths.old }
{
    for l in 0..signals.len() {
        widths[l] = q * signals[l];
    }
}

// Device by device from the lowest, a wanted one that nobody owns yet becomes the owner of its community; n stands for nobody.
pub fn own_communities(
    plant: &Plant,
    rate: AcceptedRate,
    wanted: &[u8; DEVICES],
    owner: &mut [usize],
)
    requires { (plant.now.devices ≤ length owner.old) × (length wanted.now ≡ 128) }
    ensures { owner.new ≡ over (table plant.now.devices (sweep (community (stated plant.now) rate.p rate.q) (wanted_in wanted.now) plant.now.devices plant.now.devices)) owner.old }
{
    let mut widths = [0usize; LINES];
    widen(plant.signals, rate.q, &mut widths);
    let drains = [rate.p; DEVICES];
    let lines = plant.signals.len();
    least_sets(
        plant.devices,
        plant.firsts,
        plant.seconds,
        &widths[..lines],
        &drains,
        wanted,
        owner,
    );
}
