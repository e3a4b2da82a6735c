// The least set of a network that holds its start: ways are sent along until none is left, and what can then be reached is the set.
ghost use Rattle.std.specs.Prelude.{◌≡◌, true, false, List, cond, eqb, get_or, ℕ, ◌≤◌, ◌<◌, IfSome, IfNone};
ghost use Rattle.rules.specs.Numbers.{sum};
ghost use Rattle.network.specs.Search.{Marks, Scan};
ghost use Rattle.network.specs.Parts.{Stands, Finds, Ends, Sends, Least};

use crate::index::Lines;
use crate::reach::Queue;
use crate::spare::Spare;
use rules::DEVICES;

// What can go, the queue and the lines are no struct of the three: each function here changes one or two of them and reads the others, so
// that it would be taken apart in each.

// As much as can go along the way that was found is sent. It is answered how many places of the queue can stay, where not all can: those
// before the first of the way whose line has nothing to spare any more.
fn advance(lines: &Lines, spare: &mut Spare, queue: &Queue) -> Option<usize>
    requires start_node { get_or queue.now.node 0 0 < lines.now.network.nodes }
    requires found { Finds lines.now spare.old (get_or queue.now.node 0 0) queue.now }
    requires sends { Sends lines.now.network spare.old (get_or queue.now.node 0 0) }
    ensures less { sum 128 (λ v. get_or spare.new.drain v 0) < sum 128 (λ v. get_or spare.old.drain v 0) }
    ensures sends_after { Sends lines.now.network spare.new (get_or queue.now.node 0 0) }
    ensures whole { IfNone result (Stands lines.now spare.new (get_or queue.now.node 0 0) queue.now) }
    ensures within { IfSome result (λ cut. (1 ≤ cut) × (cut < queue.now.count)) }
    ensures cut_back { IfSome result (λ cut. (marks : List ℕ) → Marks queue.now.node marks cut
        → Scan lines.now.network.firsts.now lines.now.network.seconds.now spare.new.forth spare.new.back spare.new.drain (get_or queue.now.node 0 0) queue.now.node queue.now.via queue.now.from marks cut (get_or queue.now.from cut 0) (get_or queue.now.via cut 0)) }
{
    let end = queue.count - 1;
    let v = queue.node[end];
    let most = spare.drain[v];
    let amount = queue.narrowest(lines, spare, end, most);
    spare.send(lines, queue, end, amount);
    spare.drain[v] = most - amount;
    queue.first_used(lines, spare, end)
}

// One round: the search goes on, and where it finds a node with drain left, as much as can go there is sent. Where that used up a line,
// the queue is cut back to before the first place that came by such a line, and the next round goes on behind that line.
fn round(lines: &Lines, spare: &mut Spare, queue: &mut Queue) -> bool
    requires start_node { get_or queue.old.node 0 0 < lines.now.network.nodes }
    requires standing { Stands lines.now spare.old (get_or queue.old.node 0 0) queue.old }
    requires sends { Sends lines.now.network spare.old (get_or queue.old.node 0 0) }
    ensures none { result ≡ false → Ends lines.now spare.new (get_or queue.old.node 0 0) queue.new }
    ensures standing_after { result ≡ true → Stands lines.now spare.new (get_or queue.old.node 0 0) queue.new }
    ensures less { result ≡ true → sum 128 (λ v. get_or spare.new.drain v 0) < sum 128 (λ v. get_or spare.old.drain v 0) }
    ensures sends_after { Sends lines.now.network spare.new (get_or queue.old.node 0 0) }
{
    if !queue.search(lines, spare) {
        return false;
    }
    let Some(cut) = advance(lines, spare, queue) else {
        return true;
    };
    queue.unmark(cut);
    queue.place = queue.from[cut];
    queue.rest = lines.before(queue.node[queue.place], queue.via[cut]);
    true
}

// Marks 1 the nodes of the least set that holds the start, and 0 the others. What can go and the queue are lent, as any other search left
// them.
pub fn least(lines: &Lines, start: usize, spare: &mut Spare, queue: &mut Queue)
    requires { start < lines.now.network.nodes }
    ensures least_set { Least lines.now.network start (λ v. eqb (get_or queue.new.mark v 0) 1) }
    ensures marks { (v : ℕ) → v < lines.now.network.nodes → get_or queue.new.mark v 0 ≡ cond (eqb (get_or queue.new.mark v 0) 1) 1 0 }
{
    spare.fill(&lines.network, start);
    queue.begin(lines, start);
    'rounds: while round(lines, spare, queue) {}
}
