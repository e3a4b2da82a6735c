// The least sets of a network.
use crate::plants::Short;
use crate::print::{Answer, Entries};
use crate::row::Numbers;
use network::call::least_sets;
use std::io;
use std::io::Write;

// Four numbers for the wanted nodes, four for the drains, and nodes and lines as a plant is written out. The owners are 7 before.
pub fn owned<W: Write>(answer: &mut Answer<W>, numbers: &Numbers) -> io::Result<()> {
    let wanted = [0, 1, 2, 3].map(|i| u8::from(numbers.at(i) != 0));
    let drains = [4, 5, 6, 7].map(|i| numbers.at(i));
    let mut owner = [7; 4];
    let lists = Short::written(numbers, 8);
    let plant = lists.plant();
    let taken = least_sets(
        plant.devices,
        plant.firsts,
        plant.seconds,
        plant.signals,
        &drains,
        &wanted,
        &mut owner,
    );
    write!(
        answer,
        "taken={} owners={}",
        usize::from(taken),
        Entries(&owner)
    )
}
