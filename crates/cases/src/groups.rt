// The groups at a rate.
use crate::plants::{Large, Plant, Short};
use crate::print::{Answer, Entries};
use crate::rates::rate_at;
use crate::row::{Numbers, front};
use grouping::grouping::groups_at;
use rules::DEVICES;
use std::io;
use std::io::Write;

// The groups in lent labels, with so many of the labels afterwards. A case begins with the rate.
fn labelled<W: Write>(
    answer: &mut Answer<W>,
    numbers: &Numbers,
    plant: Plant,
    labels: &mut [usize],
    shown: usize,
) -> io::Result<()> {
    let r = groups_at(
        plant.devices,
        plant.firsts,
        plant.seconds,
        plant.signals,
        rate_at(numbers, 0),
        labels,
    );
    answer.refusal(&r)?;
    write!(
        answer,
        " groups={} labels={}",
        r.unwrap_or(0),
        Entries(front(labels, shown))
    )
}

// The rate, the room in the labels, which all are 77 before, and a plant that is written out.
pub fn written<W: Write>(answer: &mut Answer<W>, numbers: &Numbers) -> io::Result<()> {
    let mut labels = [77; 16];
    let room = numbers.at(2).min(16);
    let lists = Short::written(numbers, 3);
    labelled(answer, numbers, lists.plant(), &mut labels[..room], room)
}

// The rate, and a plant made by a rule.
pub fn made<W: Write>(answer: &mut Answer<W>, numbers: &Numbers) -> io::Result<()> {
    let mut labels = [777; DEVICES];
    let mut lists = Large::filled(0);
    lists.state(numbers, 2, 0);
    labelled(answer, numbers, lists.plant(), &mut labels, lists.devices)
}
