// What the hierarchy program prints of a text, whole: the listing of the plant that the text states, or its refusal.
ghost use Rattle.std.specs.Prelude.{◌≡◌, ◌≤◌, length};
ghost use Rattle.cut.specs.Stated.{stated};
ghost use Rattle.text.specs.Writing.{written_told};
ghost use Rattle.text.specs.Shown.{ShownPlant, ShownText, ListIs};

use crate::Size;
use crate::levels::Levels;
use crate::listing::{put_listing, put_refusal};
use crate::read::read_plant;
use crate::write::Writer;
use cut::plant::Plant;
use grouping::hierarchy::hierarchy;
use rules::{DEVICES, Fault, LINES};

// Writes the listing of an accepted plant to the front of a list that holds every listing, and answers how many bytes it takes.
fn show_plant(plant: &Plant, space: &mut [u8]) -> usize
    requires { 262144 ≤ length space.old }
    ensures { ShownPlant (stated plant.now) space.old result space.new }
{
    // n × n labels of at most 128 devices
    let mut labels = [0usize; 16384];
    let mut low_p = [0usize; DEVICES];
    let mut low_q = [0usize; DEVICES];
    let Ok(count) = hierarchy(
        plant.devices,
        plant.firsts,
        plant.seconds,
        plant.signals,
        &mut labels,
        &mut low_p,
        &mut low_q,
    ) else {
        // an accepted plant, and room for every plant's hierarchy: no fault is left
        unreachable!()
    };
    let levels = Levels {
        n: plant.devices,
        count,
        labels: &labels,
        low_p: &low_p,
        low_q: &low_q,
    };
    let mut out = Writer::new(space);
    put_listing(&mut out, &levels);
    out.at
}

// Writes what is printed of a text to the front of such a list: the listing, or the refusal.
fn show_text(text: &[u8], space: &mut [u8]) -> usize
    requires { 262144 ≤ length space.old }
    ensures { ShownText text.now space.old result space.new }
{
    let mut firsts = [0usize; LINES];
    let mut seconds = [0usize; LINES];
    let mut signals = [0usize; LINES];
    match read_plant(text, &mut firsts, &mut seconds, &mut signals) {
        Ok(Size { devices, lines }) => {
            let plant = Plant {
                devices,
                firsts: &firsts[..lines],
                seconds: &seconds[..lines],
                signals: &signals[..lines],
            };
            show_plant(&plant, space)
        }
        Err(fault) => {
            let mut out = Writer::new(space);
            put_refusal(&mut out, fault);
            out.at
        }
    }
}

// Writes what is printed of a text to the front of the list, and answers how many bytes it takes.
pub fn list_text(text: &[u8], bytes: &mut [u8]) -> Result<usize, Fault>
    ensures { ListIs text.now bytes.old (written_told result) bytes.new }
{
    let mut space = [0u8; 262144];
    let count = show_text(text, &mut space);
    if bytes.len() < count {
        return Err(Fault::ShortList);
    }
    bytes[..count].copy_from_slice(&space[..count]);
    Ok(count)
}
