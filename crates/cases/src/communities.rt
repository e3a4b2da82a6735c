// The community of a device, and the owners of many.
use crate::plants::{Large, Plant, Short};
use crate::print::{Answer, Entries};
use crate::rates::rate_at;
use crate::row::Numbers;
use cut::community::community;
use cut::owners::owners;
use rules::DEVICES;
use std::io;
use std::io::Write;

// The community in lent marks, with the marks afterwards. A case begins with the device and the rate.
fn marked<W: Write>(
    answer: &mut Answer<W>,
    numbers: &Numbers,
    plant: Plant,
    marks: &mut [u8],
) -> io::Result<()> {
    let r = community(
        plant.devices,
        plant.firsts,
        plant.seconds,
        plant.signals,
        rate_at(numbers, 1),
        numbers.at(0),
        marks,
    );
    answer.refusal(&r)?;
    let extent = r.unwrap_or_default();
    write!(
        answer,
        " size={} out={} marks={}",
        extent.size,
        extent.out,
        Entries(marks)
    )
}

// The device, the rate, the room in the marks, which all are 7 before, and a plant that is written out.
pub fn written<W: Write>(answer: &mut Answer<W>, numbers: &Numbers) -> io::Result<()> {
    let mut marks = [7u8; 16];
    let room = numbers.at(3).min(16);
    marked(
        answer,
        numbers,
        Short::written(numbers, 4).plant(),
        &mut marks[..room],
    )
}

// The device, the rate, and a plant made by a rule.
pub fn made<W: Write>(answer: &mut Answer<W>, numbers: &Numbers) -> io::Result<()> {
    let mut marks = [7u8; DEVICES];
    let mut lists = Large::filled(0);
    lists.state(numbers, 3, 0);
    marked(answer, numbers, lists.plant(), &mut marks)
}

// The rate, and a plant that is written out. The owners are 7 before.
pub fn owned<W: Write>(answer: &mut Answer<W>, numbers: &Numbers) -> io::Result<()> {
    let mut owner = [7; 4];
    let lists = Short::written(numbers, 2);
    let plant = lists.plant();
    let r = owners(
        plant.devices,
        plant.firsts,
        plant.seconds,
        plant.signals,
        rate_at(numbers, 0),
        &mut owner,
    );
    answer.refusal(&r)?;
    write!(answer, " owners={}", Entries(&owner))
}
