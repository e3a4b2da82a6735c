// The hierarchy of a plant, the row of one level, and the joining rate of two devices.
use crate::plants::{Large, Lists, Plant, Short};
use crate::print::{Answer, Entries};
use crate::rates::told;
use crate::row::{Case, Numbers, front, rest};
use crate::texts::spell;
use grouping::hierarchy::hierarchy;
use grouping::joining::joining_rate;
use grouping::row::{check_row, row};
use rules::{DEVICES, LINES};
use std::io::Write;
use std::{array, io};

// An entry before the call, where it is not printed: more than any number that is filled in.
const BLANK: usize = 777777777;

// The lists that the hierarchy call fills.
#[derive(Drop)]
struct Filled<'a> {
    labels: &'a mut [usize],
    low_p: &'a mut [usize],
    low_q: &'a mut [usize],
}

impl Filled<'_> {
    // Calls, and prints what the call answers beside the lists. The number of levels is answered, 0 after a refusal.
    fn fill<W: Write>(&mut self, answer: &mut Answer<W>, plant: Plant) -> io::Result<usize> {
        let r = hierarchy(
            plant.devices,
            plant.firsts,
            plant.seconds,
            plant.signals,
            self.labels,
            self.low_p,
            self.low_q,
        );
        answer.refusal(&r)?;
        let levels = r.unwrap_or(0);
        write!(answer, " levels={levels}")?;
        Ok(levels)
    }
}

// The room in the labels and in the two lists of low rates, which all are 77 before, and a plant that is written out. The lists are
// printed as they are afterwards.
pub fn written<W: Write>(answer: &mut Answer<W>, numbers: &Numbers) -> io::Result<()> {
    let mut labels = [77; 64];
    let mut low_p = [77; 16];
    let mut low_q = [77; 16];
    let mut filled = Filled {
        labels: &mut labels[..numbers.at(0).min(64)],
        low_p: &mut low_p[..numbers.at(1).min(16)],
        low_q: &mut low_q[..numbers.at(2).min(16)],
    };
    filled.fill(answer, Short::written(numbers, 3).plant())?;
    let Filled {
        labels,
        low_p,
        low_q,
    } = filled;
    write!(
        answer,
        " labels={} low_p={} low_q={}",
        Entries(labels),
        Entries(low_p),
        Entries(low_q)
    )
}

// How many groups a level has: as many as devices that are the lowest of their group.
fn groups_of(level: &[usize]) -> usize {
    level
        .iter()
        .enumerate()
        .filter(|(device, label)| device == *label)
        .count()
}

// How many entries of a list are filled.
fn filled_in(list: &[usize]) -> usize {
    list.iter().fold(0usize, |count, x| {
        count.wrapping_add(usize::from(*x != BLANK))
    })
}

// The hierarchy of any plant: the groups and the low rates of all levels, the row of level k, and how much of each list is filled.
fn whole<W: Write>(answer: &mut Answer<W>, plant: Plant, k: usize) -> io::Result<()> {
    // n × n labels of at most 128 devices
    let mut labels = [BLANK; 16384];
    let mut low_p = [BLANK; DEVICES];
    let mut low_q = [BLANK; DEVICES];
    let mut filled = Filled {
        labels: &mut labels,
        low_p: &mut low_p,
        low_q: &mut low_q,
    };
    let levels = filled.fill(answer, plant)?;
    let level = |k| row(&labels, plant.devices, levels, k);
    let groups: [usize; DEVICES] = array::from_fn(|k| groups_of(level(k)));
    let before_last = levels.saturating_sub(1);
    write!(
        answer,
        " groups={} low_p={} low_q={} row={} filled={},{},{}",
        Entries(front(&groups, levels)),
        Entries(front(&low_p, before_last)),
        Entries(front(&low_q, before_last)),
        Entries(level(k)),
        filled_in(&labels),
        filled_in(&low_p),
        filled_in(&low_q)
    )
}

// The level whose row is shown, a plant made by a rule, and by how many the signals fall.
pub fn made<W: Write>(answer: &mut Answer<W>, numbers: &Numbers) -> io::Result<()> {
    let mut lists = Large::filled(0);
    lists.state(numbers, 1, numbers.at(7));
    whole(answer, lists.plant(), numbers.at(0))
}

// The level whose row is shown, and a plant text, in which | stands for a newline.
pub fn of_text<W: Write>(answer: &mut Answer<W>, case: &Case) -> io::Result<()> {
    let start = case.text.iter().position(|x| *x == b'p');
    let text = rest(case.text, start.unwrap_or(case.text.len()));
    let mut bytes = [0; 4096];
    spell(text, &mut bytes);
    let mut lists = Lists::<LINES>::filled(0);
    let r = lists.read(front(&bytes, text.len()));
    if r.is_err() {
        return answer.refusal(&r);
    }
    whole(answer, lists.plant(), case.numbers.at(0))
}

// The level, the level count, n, and the labels: what the companion answers, and the row.
pub fn shown<W: Write>(answer: &mut Answer<W>, numbers: &Numbers) -> io::Result<()> {
    let labels = numbers.tail(3);
    let labels = front(labels, numbers.count_from(3).unwrap_or(labels.len()));
    let (k, levels, n) = (numbers.at(0), numbers.at(1), numbers.at(2));
    answer.refusal(&check_row(labels, n, levels, k))?;
    write!(answer, " row={}", Entries(row(labels, n, levels, k)))
}

// The joining rate of the two devices with which a case begins.
fn joined<W: Write>(answer: &mut Answer<W>, numbers: &Numbers, plant: Plant) -> io::Result<()> {
    let r = joining_rate(
        plant.devices,
        plant.firsts,
        plant.seconds,
        plant.signals,
        numbers.at(0),
        numbers.at(1),
    );
    told(answer, r)
}

// The two devices, and a plant that is written out.
pub fn joining<W: Write>(answer: &mut Answer<W>, numbers: &Numbers) -> io::Result<()> {
    joined(answer, numbers, Short::written(numbers, 2).plant())
}

// The two devices, and a plant made by a rule, as for a hierarchy.
pub fn joining_made<W: Write>(answer: &mut Answer<W>, numbers: &Numbers) -> io::Result<()> {
    let mut lists = Large::filled(0);
    lists.state(numbers, 2, numbers.at(8));
    joined(answer, numbers, lists.plant())
}
