// Node by node, the owners: a wanted node that nobody owns yet becomes the owner of its least set.
ghost use Rattle.std.specs.Prelude.{◌≡◌, cond, eqb, length, get_or, ◌≤◌, ◌<◌};
ghost use Rattle.rules.specs.Cut.{Devices};
ghost use Rattle.rules.specs.Groups.{table};
ghost use Rattle.rules.specs.Lists.{over};
ghost use Rattle.rules.specs.Sweep.{wanted_in};
ghost use Rattle.network.specs.Calls.{OwnersOf};
ghost use Rattle.network.specs.Parts.{Least};

use crate::index::Lines;
use crate::judge::Network;
use crate::least::least;
use crate::reach::Queue;
use crate::spare::Spare;
use rules::DEVICES;

// Node x becomes the owner of the marked nodes among the k, whoever owned them before.
fn paint_owners(k: usize, x: usize, mark: &[u8; DEVICES], owner: &mut [usize])
    requires { (k ≤ 128) × (k ≤ length owner.old) }
    ensures { owner.new ≡ over (table k (λ v. cond (eqb (get_or mark.now v 0) 1) x (get_or owner.old v 0))) owner.old }
{
    for v in 0..k {
        let inside = mark[v] == 1;
        if inside {
            owner[v] = x;
        }
    }
}

// Node x becomes the owner of its least set; one without a line is its own, and is not searched.
fn take_over(lines: &Lines, x: usize, spare: &mut Spare, queue: &mut Queue, owner: &mut [usize])
    requires node { x < lines.now.network.nodes }
    requires room { lines.now.network.nodes ≤ length owner.old }
    ensures { (S : Devices) × Least lines.now.network x S × (owner.new ≡ over (table lines.now.network.nodes (λ v. cond (S v) x (get_or owner.old v 0))) owner.old) }
{
    let alone = lines.last_of(x).is_none();
    if alone {
        owner[x] = x;
        return;
    }
    least(lines, x, spare, queue);
    paint_owners(lines.network.nodes, x, &queue.mark, owner);
}

// Where no node has a line each wanted one is its own, and nothing is made for a search.
fn own_alone(k: usize, wanted: &[u8], owner: &mut [usize])
    requires { (k ≤ length wanted.now) × (k ≤ length owner.old) }
    ensures { owner.new ≡ over (table k (λ v. cond (wanted_in wanted.now v) v k)) owner.old }
{
    for x in 0..k {
        owner[x] = if wanted[x] != 0 { x } else { k };
    }
}

// Node by node, with what a search needs, which is lent from search to search.
fn own_searched(network: &Network, wanted: &[u8], owner: &mut [usize])
    requires { (network.now.nodes ≤ length wanted.now) × (network.now.nodes ≤ length owner.old) }
    ensures { OwnersOf network.now.nodes network.now.firsts.now network.now.seconds.now network.now.widths.now network.now.drains.now wanted.now owner.old owner.new }
{
    let lines = Lines::new(network);
    let mut spare = Spare::new();
    let mut queue = Queue::new();
    let k = network.nodes;
    owner[..k].fill(k);
    for x in 0..k {
        if wanted[x] != 0 && owner[x] == k {
            take_over(&lines, x, &mut spare, &mut queue, owner);
        }
    }
}

// The owners of the nodes of a network.
pub fn fill_owners(network: &Network, wanted: &[u8], owner: &mut [usize])
    requires { (network.now.nodes ≤ length wanted.now) × (network.now.nodes ≤ length owner.old) }
    ensures { OwnersOf network.now.nodes network.now.firsts.now network.now.seconds.now network.now.widths.now network.now.drains.now wanted.now owner.old owner.new }
{
    if network.firsts.is_empty() {
        own_alone(network.nodes, wanted, owner);
    } else {
        own_searched(network, wanted, owner);
    }
}
