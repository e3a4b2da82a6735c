// The public call.
ghost use Rattle.std.specs.Prelude.{length};
ghost use Rattle.network.specs.Calls.{OwnersAre};

use crate::judge::Network;
use crate::owners::fill_owners;

// Whether it is a network that is taken; and then fills the owner of each node: node by node from the lowest, a wanted one that nobody
// owns yet becomes the owner of its least set, contained in every other such set; k stands for nobody, since the lent list holds numbers. The
// lists come as they are lent, wrong ones too; the answer is no `Result`, for there is one reason to refuse. Marks are bytes.
pub fn least_sets(
    k: usize,
    firsts: &[usize],
    seconds: &[usize],
    widths: &[usize],
    drains: &[usize],
    wanted: &[u8],
    owner: &mut [usize],
) -> bool
    ensures { OwnersAre k firsts.now seconds.now widths.now drains.now wanted.now owner.old result owner.new }
{
    let Some(network) = Network::new(k, firsts, seconds, widths, drains) else {
        return false;
    };
    if wanted.len() < k || owner.len() < k {
        return false;
    }
    fill_owners(&network, wanted, owner);
    true
}
