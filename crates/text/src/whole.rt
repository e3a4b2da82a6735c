// The form of a whole text, and the numbers of its rows.
ghost use Rattle.std.specs.Prelude.{◌≡◌, ◌+◌, ◌≤◌, ◌<◌, length, drop};
ghost use Rattle.text.specs.Form.{good_rows, column, end_fault_of, rows_fault_of, form};
ghost use Rattle.text.specs.Told.{told_fault, told_form};

use crate::reader::Reader;

// What a text of the right form states: how many devices and lines, and the rows from the reader's place on.
#[derive(Drop)]
pub(crate) struct Stated<'a> {
    pub devices: usize,
    pub lines: usize,
    pub rows: Reader<'a>,
}

// Passes the end of the text, which is text line k.
fn pass_end(mut reader: Reader<'_>, k: usize) -> Result<(), usize>
    requires { (0 < k) × (k < 4294967296) }
    ensures { result ≡ told_fault (end_fault_of reader.entry k) }
{
    reader.word(b"end=plant\n").ok_or(k)?;
    let whole = reader.at_end();
    if whole { Ok(()) } else { Err(k + 1) }
}

// Passes m rows, the first being text line 4, and the end of the text.
fn pass_rows(mut reader: Reader<'_>, m: usize) -> Result<(), usize>
    requires { m < 1000000000 }
    ensures { result ≡ told_fault (rows_fault_of m reader.entry) }
{
    for k in 0..m {
        reader.row().ok_or(4 + k)?;
    }
    pass_end(reader, 4 + m)
}

// What the text states, or the number of the text line that is not as expected.
pub(crate) fn form_of(text: &[u8]) -> Result<Stated<'_>, usize>
    ensures { result ≡ told_form text.now (form text.now) }
{
    let mut reader = Reader::new(text);
    reader.word(b"plant=1\n").ok_or(1usize)?;
    let devices = reader.field(b"devices=", b"\n").ok_or(2usize)?;
    let lines = reader.field(b"lines=", b"\n").ok_or(3usize)?;
    let rows = reader.again();
    pass_rows(reader, lines)?;
    Ok(Stated {
        devices,
        lines,
        rows,
    })
}

// Fills the three lists, which are a plant's, with the numbers of as many rows, which are there.
pub(crate) fn keep_rows(
    mut rows: Reader<'_>,
    firsts: &mut [usize],
    seconds: &mut [usize],
    signals: &mut [usize],
)
    requires lists { (length firsts.old ≡ length seconds.old) × (length seconds.old ≡ length signals.old) }
    requires good { good_rows (length firsts.old) rows ≡ length firsts.old }
    ensures { (firsts.new ≡ column (λ r. r.first) (length firsts.old) rows.entry)
        × (seconds.new ≡ column (λ r. r.second) (length firsts.old) rows.entry)
        × (signals.new ≡ column (λ r. r.signals) (length firsts.old) rows.entry) }
{
    for i in 0..firsts.len() {
        let line = rows.row().unwrap();
        firsts[i] = line.first;
        seconds[i] = line.second;
        signals[i] = line.signals;
    }
}
