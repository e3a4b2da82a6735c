// The owners of all devices of one plant and rate.
ghost use Rattle.std.specs.Prelude.{◌≡◌, length, replicate};
ghost use Rattle.rules.specs.Faults.{told};
ghost use Rattle.rules.specs.Lists.{over};
ghost use Rattle.cut.specs.Stated.{stated};
ghost use Rattle.cut.specs.Calls.{owners_fault, owners_of, owners_after};

use crate::plant::Plant;
use crate::rate::{AcceptedRate, Rate};
use crate::sets::own_communities;
use rules::{DEVICES, Fault};

// For each device its owner.
pub type Owners = [usize; DEVICES];

// The owners of an accepted plant at a rate in range.
pub fn owners_at(plant: &Plant, rate: AcceptedRate) -> Owners
    ensures { result ≡ over (owners_of (stated plant.now) rate.p rate.q) (replicate 128 0) }
{
    let wanted = [1u8; DEVICES];
    let mut owner = [0usize; DEVICES];
    own_communities(plant, rate, &wanted, &mut owner);
    owner
}

// The owners at a rate: device by device from the lowest, one that nobody owns yet becomes the owner of its community, and of all in it.
// The plant comes as n and three lists, wrong ones too: document 01, "A plant is n with three lists of one length".
pub fn owners(
    n: usize,
    firsts: &[usize],
    seconds: &[usize],
    signals: &[usize],
    rate: Rate,
    owner: &mut [usize],
) -> Result<(), Fault>
    ensures answer { told result ≡ owners_fault n firsts.now seconds.now signals.now rate.p rate.q (length owner.old) }
    ensures owners_filled { owner.new ≡ owners_after n firsts.now seconds.now signals.now rate.p rate.q owner.old }
{
    let plant = Plant::new(n, firsts, seconds, signals)?;
    let rate = rate.check()?;
    if owner.len() < n {
        return Err(Fault::ShortList);
    }
    owner[..n].copy_from_slice(&owners_at(&plant, rate)[..n]);
    Ok(())
}
