// The specimen job record of document 01: its cases, run by the compiled services. Each line has a call, and of its answer the number, the
// length, the bytes, and the length that a value of a read needs.
#![tactic(auto)]

ghost use Rattle.std.specs.Prelude.{◌≤◌, length};
ghost use Rattle.lyrecanyon.specs.Answers.{answer_length};

use lyrecanyon::Answer;
use std::io;
use std::io::Write;

const TABLE: [u8; 66] =
    *b"\xe5\xc6\xe3\x00\x01\x0a\xc1\xc1\x01\xc1\x05\x00\xc1\xc2\x01\xd7\x03\x00\xd4\xc6\x01\xe4\x02\x01\xc7\xc2\x01\x40\x00\x02\xc2\xc1\x02\xc2\x01\x00\xc3\xc2\x02\xe4\x01\x01\xc8\xc2\x01\x40\x00\x02\xc2\xc2\x02\xc2\x01\x00\xc2\xc4\x02\xc1\x02\x00\xe9\xe5\x01\xc1\x00\x00";

const RECORD: [u8; 24] =
    *b"\xe5\xd9\xc3\x00\x01\xc3\xc1\xc2\x40\x40\x00\x15\x0f\x02\xf1\xf5\xf5\xf0\x01\x07\x01\xf3\x00\x01";

// A read of the specimen, as it is shown, and its format.
struct Read {
    shown: &'static [u8],
    format: &'static [u8],
}

// An update of the specimen, as it is shown, its format and its record buffer.
struct Update {
    shown: &'static [u8],
    format: &'static [u8],
    buffer: &'static [u8],
}

const READS: [Read; 15] = [
    // Values at their standard length and format, and at others.
    Read {
        shown: b"read AA,AB. ",
        format: b"\xc1\xc1\x6b\xc1\xc2\x4b",
    },
    Read {
        shown: b"read AB,2. ",
        format: b"\xc1\xc2\x6b\xf2\x4b",
    },
    Read {
        shown: b"read AB,1. ",
        format: b"\xc1\xc2\x6b\xf1\x4b",
    },
    Read {
        shown: b"read AB,5,U. ",
        format: b"\xc1\xc2\x6b\xf5\x6b\xe4\x4b",
    },
    Read {
        shown: b"read AB,2,B. ",
        format: b"\xc1\xc2\x6b\xf2\x6b\xc2\x4b",
    },
    Read {
        shown: b"read ZV. ",
        format: b"\xe9\xe5\x4b",
    },
    Read {
        shown: b"read ZV,3. ",
        format: b"\xe9\xe5\x6b\xf3\x4b",
    },
    // Counts, values and occurrences, those that do not exist among them.
    Read {
        shown: b"read MF,MF,MF. ",
        format: b"\xd4\xc6\x6b\xd4\xc6\x6b\xd4\xc6\x4b",
    },
    Read {
        shown: b"read MFC,3X,MF2. ",
        format: b"\xd4\xc6\xc3\x6b\xf3\xe7\x6b\xd4\xc6\xf2\x4b",
    },
    Read {
        shown: b"read CB1(1-2),CB2C. ",
        format: b"\xc3\xc2\xf1\x4d\xf1\x60\xf2\x5d\x6b\xc3\xc2\xf2\xc3\x4b",
    },
    Read {
        shown: b"read HB2. ",
        format: b"\xc8\xc2\xf2\x4b",
    },
    // Refused.
    Read {
        shown: b"read . ",
        format: b"\x4b",
    },
    Read {
        shown: b"read QQ. ",
        format: b"\xd8\xd8\x4b",
    },
    Read {
        shown: b"read GB1. ",
        format: b"\xc7\xc2\xf1\x4b",
    },
    Read {
        shown: b"read MF2-1. ",
        format: b"\xd4\xc6\xf2\x60\xf1\x4b",
    },
];

const INTO_FOUR_BYTES: Read = Read {
    shown: b"read AA. into 4 bytes ",
    format: b"\xc1\xc1\x4b",
};

const INTO_FIVE_BYTES: Read = Read {
    shown: b"read AA. into 5 bytes ",
    format: b"\xc1\xc1\x4b",
};

const UPDATES: [Update; 9] = [
    // Counts.
    Update {
        shown: b"update MF. F5F0 ",
        format: b"\xd4\xc6\x4b",
        buffer: b"\xf5\xf0",
    },
    Update {
        shown: b"update MF1. F5F0 ",
        format: b"\xd4\xc6\xf1\x4b",
        buffer: b"\xf5\xf0",
    },
    Update {
        shown: b"update MF4. F1F0 ",
        format: b"\xd4\xc6\xf4\x4b",
        buffer: b"\xf1\xf0",
    },
    Update {
        shown: b"update HB2. 05C1C2 ",
        format: b"\xc8\xc2\xf2\x4b",
        buffer: b"\x05\xc1\xc2",
    },
    // Values.
    Update {
        shown: b"update AB. 00150C ",
        format: b"\xc1\xc2\x4b",
        buffer: b"\x00\x15\x0c",
    },
    Update {
        shown: b"update AB,2,B. FFFF ",
        format: b"\xc1\xc2\x6b\xf2\x6b\xc2\x4b",
        buffer: b"\xff\xff",
    },
    Update {
        shown: b"update AB,3,B. 0186A0 ",
        format: b"\xc1\xc2\x6b\xf3\x6b\xc2\x4b",
        buffer: b"\x01\x86\xa0",
    },
    Update {
        shown: b"update AB. 001A5F ",
        format: b"\xc1\xc2\x4b",
        buffer: b"\x00\x1a\x5f",
    },
    Update {
        shown: b"update MF2,MF1,MF. F0F0F0F0F0F0 ",
        format: b"\xd4\xc6\xf2\x6b\xd4\xc6\xf1\x6b\xd4\xc6\x4b",
        buffer: b"\xf0\xf0\xf0\xf0\xf0\xf0",
    },
];

// A call as it is shown, in at most 32 bytes (more would be cut off), and its answer, whose bytes stand in front of a slice: one line,
// written at once.
fn show<W: Write>(to: &mut W, shown: &[u8], answer: Answer, written: &[u8]) -> io::Result<()>
    requires { (length written.now ≤ 32) × (answer_length answer ≤ length written.now) }
{
    let used = lyrecanyon::length_used(answer);
    // What is shown, two digits for each of 32 bytes, and 24 more.
    let mut out = [0; 120];
    let at = buffer::put(&shown[..shown.len().min(32)], &mut out, 0);
    let end = protocol::put_read_answer(
        lyrecanyon::number(answer),
        &written[..used],
        usize::from(lyrecanyon::length_needed(answer)),
        &mut out,
        at,
    );
    lines::write(to, &out, end)
}

// Reads the specimen into a buffer, and shows the call.
fn show_read<W: Write>(to: &mut W, read: &Read, buffer: &mut [u8]) -> io::Result<()>
    requires { length buffer.old ≤ 32 }
{
    let answer = lyrecanyon::read(&TABLE, &RECORD, read.format, buffer);
    show(to, read.shown, answer, buffer)
}

// Updates the specimen into a room, and shows the call.
fn show_update<W: Write>(to: &mut W, update: &Update, room: &mut [u8]) -> io::Result<()>
    requires { length room.old ≤ 32 }
{
    let answer = lyrecanyon::update(&TABLE, &RECORD, update.format, update.buffer, room);
    show(to, update.shown, answer, room)
}

fn main(rt: HostRuntime) -> io::Result<()> {
    let mut to = rt.stdout();
    for read in &READS {
        show_read(&mut to, read, &mut [0; 8])?;
    }
    show_read(&mut to, &INTO_FOUR_BYTES, &mut [0; 4])?;
    show_read(&mut to, &INTO_FIVE_BYTES, &mut [0; 5])?;
    for update in &UPDATES {
        show_update(&mut to, update, &mut [0; 32])?;
    }
    Ok(())
}
