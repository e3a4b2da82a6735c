// Writing a plant as a text: the check of the plant, the number of bytes, room, and then the bytes.
ghost use Rattle.std.specs.Prelude.{◌≡◌, ◌+◌, ◌≤◌, length, drop};
ghost use Rattle.text.specs.Numbers.{digits};
ghost use Rattle.text.specs.Lines.{field_text, row_text};
ghost use Rattle.text.specs.Form.{rows_text, plant_text};
ghost use Rattle.text.specs.Writing.{written_told, WriteIs};
ghost use Rattle.text.specs.Writer.{HasRoom, Writes};

use cut::plant::Plant;
use rules::Fault;

// A list of bytes, and the place where the next word goes.
#[derive(Drop)]
pub(crate) struct Writer<'a> {
    bytes: &'a mut [u8],
    pub at: usize,
}

impl<'a> Writer<'a> {
    // The writer of a list, at its front.
    pub(crate) fn new(bytes: &'a mut [u8]) -> Writer<'a>
        ensures { (result.bytes.ghost_name ≡ bytes.entry.ghost_name) × (result.bytes.now ≡ bytes.old) × (result.at ≡ 0) }
    {
        Writer { bytes, at: 0 }
    }

    // Writes a word.
    pub(crate) fn put(&mut self, word: &[u8])
        requires { HasRoom self.old word.now }
        ensures { Writes self.old word.now self.new }
    {
        let to = self.at + word.len();
        self.bytes[self.at..to].copy_from_slice(word);
        self.at = to;
    }

    // Writes a field: a key, a number, and what ends it.
    pub(crate) fn put_field(&mut self, key: &[u8], v: usize, stop: &[u8])
        requires { HasRoom self.old (field_text key.now stop.now v) }
        ensures { Writes self.old (field_text key.now stop.now v) self.new }
    {
        let mut d = [0u8; 9];
        let start = decimals(&mut d, v);
        self.put(key);
        self.put(&d[start..]);
        self.put(stop);
    }
}

// Writes the digits of a number to the end of an array, and answers where they start.
fn decimals(d: &mut [u8; 9], v: usize) -> usize
    requires { length d.old ≡ 9 }
    ensures { (result ≤ 9) × (length d.new ≡ 9) × (drop result d.new ≡ digits v) }
{
    let mut rest = v;
    for at in (0..9).rev() {
        d[at] = b'0' + (rest % 10) as u8;
        if rest < 10 {
            return at;
        }
        rest /= 10;
    }
    0
}

// Writes a row.
fn put_row(out: &mut Writer<'_>, a: usize, b: usize, s: usize)
    requires { HasRoom out.old (row_text a b s) }
    ensures { Writes out.old (row_text a b s) out.new }
{
    out.put_field(b"line=", a, b",");
    out.put_field(b"", b, b",");
    out.put_field(b"", s, b"\n");
}

// Writes the rows of all lines.
fn put_rows(out: &mut Writer<'_>, plant: &Plant)
    requires { HasRoom out.old (rows_text plant.now.firsts.now plant.now.seconds.now plant.now.signals.now) }
    ensures { Writes out.old (rows_text plant.now.firsts.now plant.now.seconds.now plant.now.signals.now) out.new }
{
    for i in 0..plant.firsts.len() {
        put_row(out, plant.firsts[i], plant.seconds[i], plant.signals[i]);
    }
}

// How many digits a number has.
fn number_len(v: usize) -> usize
    ensures { (result ≡ length (digits v)) × (result ≤ 9) }
{
    let mut d = [0u8; 9];
    9 - decimals(&mut d, v)
}

// How many bytes a row takes.
fn row_len(a: usize, b: usize, s: usize) -> usize
    ensures { (result ≡ length (row_text a b s)) × (result ≤ 35) }
{
    8 + number_len(a) + number_len(b) + number_len(s)
}

// How many bytes the rows of all lines take.
fn rows_len(plant: &Plant) -> usize
    ensures { (result ≡ length (rows_text plant.now.firsts.now plant.now.seconds.now plant.now.signals.now)) × (result ≤ 35840) }
{
    let mut sum: usize = 0;
    for i in 0..plant.firsts.len() {
        sum += row_len(plant.firsts[i], plant.seconds[i], plant.signals[i]);
    }
    sum
}

// Writes the text of a plant.
fn put_plant(out: &mut Writer<'_>, plant: &Plant)
    requires { HasRoom out.old (plant_text plant.now.devices plant.now.firsts.now plant.now.seconds.now plant.now.signals.now) }
    ensures { Writes out.old (plant_text plant.now.devices plant.now.firsts.now plant.now.seconds.now plant.now.signals.now) out.new }
{
    out.put(b"plant=1\n");
    out.put_field(b"devices=", plant.devices, b"\n");
    out.put_field(b"lines=", plant.firsts.len(), b"\n");
    put_rows(out, plant);
    out.put(b"end=plant\n");
}

// Writes the text of a plant to the front of a list, and answers how many bytes it takes.
// The plant comes as n and three lists, wrong ones too: document 01, "A plant is n with three lists of one length".
pub fn write_plant(
    n: usize,
    firsts: &[usize],
    seconds: &[usize],
    signals: &[usize],
    bytes: &mut [u8],
) -> Result<usize, Fault>
    ensures { WriteIs n firsts.now seconds.now signals.now bytes.old (written_told result) bytes.new }
{
    let plant = Plant::new(n, firsts, seconds, signals)?;
    let lines = plant.firsts.len();
    let count = 34 + number_len(plant.devices) + number_len(lines) + rows_len(&plant);
    if bytes.len() < count {
        return Err(Fault::ShortList);
    }
    let mut out = Writer::new(bytes);
    put_plant(&mut out, &plant);
    Ok(count)
}
