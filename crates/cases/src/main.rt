// Runs the case tables: each row of standard input is a case, and after a semicolon the expected answer.
// The case goes through the proved calls, and its row in the output has the answer and whether it is the expected one. A row that starts
// with # is a heading.
#![tactic(auto)]

mod checks;
mod communities;
mod groups;
mod kind;
mod levels;
mod networks;
mod plants;
mod print;
mod rates;
mod row;
mod texts;

use kind::{Kind, UnknownKind};
use print::{Answer, Tally};
use row::Case;
use std::io;
use std::io::{Read, Write};

// The answer to a case of a kind.
fn call<W: Write>(kind: Kind, case: &Case, answer: &mut Answer<W>) -> io::Result<()> {
    let numbers = &case.numbers;
    match kind {
        Kind::Compare => rates::compare(answer, numbers),
        Kind::Reduce => rates::reduce(answer, numbers),
        Kind::Check => checks::written(answer, numbers),
        Kind::Lists => checks::lists(answer, numbers),
        Kind::Community => communities::written(answer, numbers),
        Kind::LargeCommunity => communities::made(answer, numbers),
        Kind::Owners => communities::owned(answer, numbers),
        Kind::Network => networks::owned(answer, numbers),
        Kind::Groups => groups::written(answer, numbers),
        Kind::LargeGroups => groups::made(answer, numbers),
        Kind::Hierarchy => levels::written(answer, numbers),
        Kind::LargeHierarchy => levels::made(answer, numbers),
        Kind::TextHierarchy => levels::of_text(answer, case),
        Kind::Row => levels::shown(answer, numbers),
        Kind::Joining => levels::joining(answer, numbers),
        Kind::LargeJoining => levels::joining_made(answer, numbers),
        Kind::Read => texts::read(answer, case),
        Kind::Long => texts::long(answer, case),
        Kind::Full => texts::full(answer, numbers),
        Kind::Surplus => texts::surplus(answer, case),
        Kind::Write => texts::write(answer, numbers),
    }
}

// One row: the case and its answer, and whether it is the expected one.
fn run<W: Write>(out: &mut W, row: &[u8]) -> io::Result<bool> {
    let (text, expected) = row::parts(row);
    let mut answer = Answer::begin(out, text, expected)?;
    match Kind::try_from(text) {
        Ok(kind) => call(kind, &Case::new(text), &mut answer)?,
        Err(UnknownKind) => answer.unknown()?,
    }
    answer.verdict()
}

// All rows of a table.
fn run_all<W: Write>(out: &mut W, table: &[u8]) -> io::Result<Tally> {
    let mut tally = Tally::default();
    for row in table.split_inclusive(|x| *x == b'\n') {
        let row = row.strip_suffix(b"\n").unwrap_or(row);
        if !row.starts_with(b"#") {
            tally.count(run(out, row)?);
        }
    }
    Ok(tally)
}

fn main(rt: HostRuntime) -> io::Result<()> {
    let mut table = Vec::new(rt.alloc());
    rt.stdin().take(131072).read_to_end(&mut table)?;
    let mut out = io::writer(&rt);
    let tally = run_all(&mut out, &table)?;
    writeln!(out, "{tally}")
}
