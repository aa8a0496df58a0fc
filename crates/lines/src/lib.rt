// The lines of an input, one at a time, in an area that is lent, and the answers to an output.
#![tactic(auto)]

ghost use Rattle.std.specs.Prelude.{◌≡◌, ◌-◌, ◌≤◌, ◌<◌, length, take, drop, IfOk, OnOk, OnErr};
ghost use Rattle.std.specs.Io.KnownBytes.{Appends, Keeps};
ghost use Rattle.lines.specs.Placed.{Placed, Begun, HeldAtFront};

use std::io;
use std::io::{Read, Write};

// A line, if one was found: where it starts and ends in the input area.
// `more` is how often the next line may be asked for, 0 once the input has ended: a proved loop has to end, and nothing says that
// the input does, so it counts down from a number that no run uses up.
// The bytes from next up to filled are still to be looked at, and those before seen have no newline. If `skips`, those up to the
// next newline belong to a line that was too long.
#[derive(Clone, Copy)]
pub struct Line {
    pub found: Option<(usize, usize)>,
    pub more: u64,
    next: usize,
    seen: usize,
    filled: usize,
    skips: bool,
}

// A line of 160,000 bytes, the longest that can be a call, and its newline.
pub fn input_area() -> [u8; 160001]
    ensures { 160001 ≡ length result }
{
    [0; 160001]
}

// What the words of such a line spell: a byte takes two digits.
pub fn bytes_area() -> [u8; 80000]
    ensures { 80000 ≡ length result }
{
    [0; 80000]
}

// No line, before the first read.
pub fn begin() -> Line
    ensures { Begun result }
{
    Line {
        found: None,
        more: u64::MAX,
        next: 0,
        seen: 0,
        filled: 0,
        skips: false,
    }
}

// The bytes from a place on up to another, to the front; how many they are.
fn move_front(s: &mut [u8], from: usize, to: usize) -> usize
    requires { (from ≤ to) × (to ≤ length s.old) }
    ensures { (result ≡ to - from) × (take result s.new ≡ take result (drop from s.old)) }
{
    if 0 < from {
        s.copy_within(from..to, 0);
    }
    to - from
}

// One read, to the input from held on; the place after what came, which is held itself if nothing more comes. A read that fails takes
// nothing from the reader.
fn read_more<R: Read>(reader: &mut R, input: &mut [u8], held: usize) -> io::Result<usize>
    requires { held ≤ length input.old }
    ensures read { IfOk result (λ end. (held ≤ end) × (end ≤ length input.old)) }
    ensures before { take held input.new ≡ take held input.old }
    ensures failed { OnErr result (Keeps (R.remaining reader.old) (R.remaining reader.new)) }
{
    let got = reader.read(&mut input[held..])?;
    Ok(held + got)
}

// One read after the bytes that have no newline, which come to the front. If nothing comes, these are the last line, unless there are none.
fn fill<R: Read>(reader: &mut R, input: &mut [u8], l: Line) -> io::Result<Line>
    requires { Placed (length input.old) l × (0 < l.more) × (l.filled - l.next < length input.old) }
    ensures placed { IfOk result (λ next. Placed (length input.old) next × (next.more < l.more)) }
    ensures held { HeldAtFront l input.old input.new }
    ensures failed { OnErr result (Keeps (R.remaining reader.old) (R.remaining reader.new)) }
{
    let held = move_front(input, l.next, l.filled);
    let filled = read_more(reader, input, held)?;
    if held < filled {
        return Ok(Line {
            found: None,
            more: l.more - 1,
            next: 0,
            seen: held,
            filled,
            skips: l.skips,
        });
    }
    Ok(Line {
        found: (0 < held && !l.skips).then_some((0, held)),
        more: 0,
        next: 0,
        seen: 0,
        filled: 0,
        skips: false,
    })
}

// Where the next newline stands, or the end of what was read.
fn find_end(input: &[u8], l: Line) -> usize
    requires { Placed (length input.now) l }
    ensures { (l.seen ≤ result) × (result ≤ l.filled) }
{
    buffer::find(&input[..l.filled], l.seen, b'\n')
}

// The next line, if it stands in the input area already; else one read. A line that fills the area is too long: it is found as an
// empty one, and the rest of it skipped. After an error the bytes that were still to be looked at stand at the front of the area, so that l
// no longer says where they are, and the reader has what it had.
pub fn next<R: Read>(reader: &mut R, input: &mut [u8], l: Line) -> io::Result<Line>
    requires { Placed (length input.old) l × (0 < l.more) }
    ensures placed { IfOk result (λ next. Placed (length input.old) next × (next.more < l.more)) }
    ensures held { OnErr result (HeldAtFront l input.old input.new) }
    ensures failed { OnErr result (Keeps (R.remaining reader.old) (R.remaining reader.new)) }
{
    let end = find_end(input, l);
    if end < l.filled {
        return Ok(Line {
            found: (!l.skips).then_some((l.next, end)),
            more: l.more - 1,
            next: end + 1,
            seen: end + 1,
            filled: l.filled,
            skips: false,
        });
    }
    if l.filled - l.next < input.len() {
        return fill(reader, input, l);
    }
    Ok(Line {
        found: (!l.skips).then_some((0, 0)),
        more: l.more - 1,
        next: 0,
        seen: 0,
        filled: 0,
        skips: true,
    })
}

// Writes the first `used` bytes of out, which a writer that says what it holds has after what it held. After an error some of them may
// have been written; what is written from is lent to be read alone, so it stays.
pub fn write<W: Write>(writer: &mut W, out: &[u8], used: usize) -> io::Result<()>
    requires { used ≤ length out.now }
    ensures within { used ≤ length out.now }
    ensures written { OnOk result (Appends (W.contents writer.old) (W.contents writer.new) (take used out.now)) }
{
    writer.write_all(&out[..used])
}
