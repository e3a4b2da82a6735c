// Plant texts: reading and writing. In a row of the table | stands for a newline, and ~ for a carriage return.
use crate::plants::{Lists, Plant, Rule, Shape, Short};
use crate::print::{Answer, Entries};
use crate::row::{Case, Numbers, front, rest};
use rules::{Fault, LINES};
use std::io;
use std::io::Write;
use text::write::write_plant;

// Puts the bytes that a row stands for at the front of some bytes, as many as there is room for.
pub fn spell(row: &[u8], bytes: &mut [u8]) {
    for (byte, x) in bytes.iter_mut().zip(row) {
        *byte = match x {
            b'|' => b'\n',
            b'~' => b'\r',
            _ => *x,
        };
    }
}

// The text of a plant, in lent bytes.
fn write_to(plant: Plant, bytes: &mut [u8]) -> Result<usize, Fault> {
    write_plant(
        plant.devices,
        plant.firsts,
        plant.seconds,
        plant.signals,
        bytes,
    )
}

// What reading into lists answers.
fn read_into<W: Write, const N: usize>(
    answer: &mut Answer<W>,
    text: &[u8],
    lists: &mut Lists<N>,
) -> io::Result<()> {
    let r = lists.read(text);
    answer.refusal(&r)?;
    let size = r.unwrap_or_default();
    write!(answer, " devices={} lines={}", size.devices, size.lines)
}

// " back" where the text of a plant is the one that it was read from.
fn back<W: Write>(answer: &mut Answer<W>, plant: Plant, text: &[u8]) -> io::Result<()> {
    let mut bytes = [0; 32768];
    match write_to(plant, &mut bytes) {
        Ok(count) if front(&bytes, count) == text => write!(answer, " back"),
        _ => Ok(()),
    }
}

// Reading into lists of three entries, which all are 77 before, with the lists afterwards.
fn read_in<W: Write>(answer: &mut Answer<W>, text: &[u8]) -> io::Result<()> {
    let mut lists = Lists::<3>::filled(77);
    read_into(answer, text, &mut lists)?;
    write!(
        answer,
        " firsts={} seconds={} signals={}",
        Entries(&lists.firsts),
        Entries(&lists.seconds),
        Entries(&lists.signals)
    )?;
    back(answer, lists.plant(), text)
}

// Reading into lists of 1,024 entries.
fn read_back<W: Write>(answer: &mut Answer<W>, text: &[u8]) -> io::Result<()> {
    let mut lists = Lists::<LINES>::filled(0);
    read_into(answer, text, &mut lists)?;
    back(answer, lists.plant(), text)
}

// A text that is written out.
pub fn read<W: Write>(answer: &mut Answer<W>, case: &Case) -> io::Result<()> {
    let text = rest(case.text, 5);
    let mut bytes = [0; 512];
    spell(text, &mut bytes);
    read_in(answer, front(&bytes, text.len()))
}

// A text that is written out, with newlines after it up to a length.
pub fn long<W: Write>(answer: &mut Answer<W>, case: &Case) -> io::Result<()> {
    let mut bytes = [b'\n'; 32769];
    spell(rest(case.text, 11), &mut bytes);
    read_in(answer, front(&bytes, case.numbers.at(0)))
}

// A plant made by a rule, written and read back: reach, devices, lines, the signals of each line. Answers what reading does, and whether
// it is written back as it was.
pub fn full<W: Write>(answer: &mut Answer<W>, numbers: &Numbers) -> io::Result<()> {
    let mut lists = Lists::<LINES>::filled(0);
    lists.make(Rule {
        shape: Shape::from(numbers.at(0)),
        devices: numbers.at(1),
        signals: numbers.at(3),
        fall: 0,
    });
    lists.lengths = [numbers.at(2); 3];
    let mut bytes = [0; 32768];
    let count = write_to(lists.plant(), &mut bytes).unwrap_or(0);
    read_back(answer, front(&bytes, count))?;
    write!(answer, " count={count}")
}

// The text of 1,024 lines with one row more, and another stated number of lines of four digits.
pub fn surplus<W: Write>(answer: &mut Answer<W>, case: &Case) -> io::Result<()> {
    let mut lists = Lists::<LINES>::filled(0);
    lists.make(Rule::FULL);
    let mut bytes = [0; 32768];
    let count = write_to(lists.plant(), &mut bytes).unwrap_or(0);
    let mut put = |row: &[u8], at: usize| {
        if let Some(bytes) = bytes.get_mut(at..) {
            spell(row, bytes);
        }
    };
    let stated = b"plant=1|devices=128|lines=";
    put(rest(case.text, 8), stated.len());
    let more = b"line=113,121,1|end=plant|";
    let at = count.saturating_sub(b"end=plant|".len());
    put(more, at);
    read_back(answer, front(&bytes, at.saturating_add(more.len())))
}

// The room for the bytes, which all are * before, and a plant that is written out. The bytes are printed as they are afterwards.
pub fn write<W: Write>(answer: &mut Answer<W>, numbers: &Numbers) -> io::Result<()> {
    let mut bytes = [b'*'; 128];
    let bytes = &mut bytes[..numbers.at(0).min(128)];
    let w = write_to(Short::written(numbers, 1).plant(), bytes);
    answer.refusal(&w)?;
    write!(answer, " count={} text=", w.unwrap_or(0))?;
    answer.text(bytes)
}
