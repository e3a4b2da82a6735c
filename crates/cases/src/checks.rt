// The check of a plant.
use crate::plants::{Large, Plant, Rule, Short};
use crate::print::Answer;
use crate::row::Numbers;
use cut::check::check_plant;
use std::io;
use std::io::Write;

fn check<W: Write>(answer: &mut Answer<W>, plant: Plant) -> io::Result<()> {
    let r = check_plant(plant.devices, plant.firsts, plant.seconds, plant.signals);
    answer.refusal(&r)
}

// A plant that is written out: n, and the lines.
pub fn written<W: Write>(answer: &mut Answer<W>, numbers: &Numbers) -> io::Result<()> {
    check(answer, Short::written(numbers, 0).plant())
}

// Three lists of any length, n devices, and the signals of line 1,023, 1 where nothing is said of them. The other lines that are there
// break no rule on 128 devices.
pub fn lists<W: Write>(answer: &mut Answer<W>, numbers: &Numbers) -> io::Result<()> {
    let mut lists = Large::filled(0);
    lists.make(Rule::FULL);
    lists.lengths = [numbers.at(0), numbers.at(1), numbers.at(2)];
    lists.devices = numbers.at(3);
    lists.signals[1023] = numbers.at(4).max(1);
    check(answer, lists.plant())
}
