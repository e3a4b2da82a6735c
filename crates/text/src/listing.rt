// The listing of a hierarchy, piece by piece.
ghost use Rattle.std.specs.Prelude.{◌≡◌, suc, ◌-◌, ◌≤◌, ◌<◌, length};
ghost use Rattle.rules.specs.Faults.{refusal_of};
ghost use Rattle.text.specs.Listing.{others_text, group_text, groups_text, head_count, refused_text};
ghost use Rattle.text.specs.Levels.{low_line, level_of, levels_of, listing_of};
ghost use Rattle.text.specs.Writer.{HasRoom, Writes};

use crate::levels::Levels;
use crate::write::Writer;
use cut::rate::Rate;
use rules::Fault;

// Writes the devices after h of the group with head h, each behind a comma.
fn put_others(out: &mut Writer<'_>, level: &[usize], h: usize)
    requires head { h < length level.now }
    requires room { HasRoom out.old (others_text level.now h (suc h) (length level.now - suc h)) }
    ensures { Writes out.old (others_text level.now h (suc h) (length level.now - suc h)) out.new }
{
    for v in h + 1..level.len() {
        if level[v] == h {
            out.put_field(b",", v, b"");
        }
    }
}

// Writes the row of the group with head h.
fn put_group(out: &mut Writer<'_>, level: &[usize], h: usize)
    requires head { h < length level.now }
    requires room { HasRoom out.old (group_text (length level.now) level.now h) }
    ensures { Writes out.old (group_text (length level.now) level.now h) out.new }
{
    out.put_field(b"group=", h, b":");
    out.put_field(b"", h, b"");
    put_others(out, level, h);
    out.put(b"\n");
}

// Writes the rows of all groups of a level.
fn put_groups(out: &mut Writer<'_>, level: &[usize])
    requires { HasRoom out.old (groups_text (length level.now) level.now 0 (length level.now)) }
    ensures { Writes out.old (groups_text (length level.now) level.now 0 (length level.now)) out.new }
{
    for (h, label) in level.iter().enumerate() {
        if *label == h {
            put_group(out, level, h);
        }
    }
}

// How many groups a level has.
fn count_heads(level: &[usize]) -> usize
    ensures { result ≡ head_count level.now 0 (length level.now) }
{
    let mut count = 0;
    for (h, label) in level.iter().enumerate() {
        if *label == h {
            count += 1;
        }
    }
    count
}

// Writes the low rate of a level, or that it has none.
fn put_low(out: &mut Writer<'_>, low: Option<Rate>)
    requires { HasRoom out.old (low_line low) }
    ensures { Writes out.old (low_line low) out.new }
{
    match low {
        Some(rate) => {
            out.put_field(b"low=", rate.p, b"/");
            out.put_field(b"", rate.q, b"\n");
        }
        None => out.put(b"low=none\n"),
    }
}

// Writes level i.
fn put_level(out: &mut Writer<'_>, levels: &Levels<'_>, i: usize)
    requires there { i < levels.now.count }
    requires room { HasRoom out.old (level_of levels.now i) }
    ensures { Writes out.old (level_of levels.now i) out.new }
{
    let level = levels.level(i);
    let low = levels.low(i);
    let groups = count_heads(level);
    out.put_field(b"level=", i, b"\n");
    put_low(out, low);
    out.put_field(b"groups=", groups, b"\n");
    put_groups(out, level);
}

// Writes all levels.
fn put_levels(out: &mut Writer<'_>, levels: &Levels<'_>)
    requires { HasRoom out.old (levels_of levels.now) }
    ensures { Writes out.old (levels_of levels.now) out.new }
{
    for i in 0..levels.count {
        put_level(out, levels, i);
    }
}

// Writes the listing of a hierarchy. (The like in write.rt writes other words.)
pub(crate) fn put_listing(out: &mut Writer<'_>, levels: &Levels<'_>)
    requires { HasRoom out.old (listing_of levels.now) }
    ensures { Writes out.old (listing_of levels.now) out.new }
{
    out.put(b"hierarchy=1\n");
    out.put_field(b"devices=", levels.n, b"\n");
    out.put_field(b"levels=", levels.count, b"\n");
    put_levels(out, levels);
    out.put(b"end=hierarchy\n");
}

// Writes the refusal of a text.
pub(crate) fn put_refusal(out: &mut Writer<'_>, fault: Fault)
    requires { HasRoom out.old (refused_text (refusal_of fault).number (refusal_of fault).place) }
    ensures { Writes out.old (refused_text (refusal_of fault).number (refusal_of fault).place) out.new }
{
    out.put_field(b"refused=", fault.number(), b"\n");
    out.put_field(b"at=", fault.place(), b"\n");
}
