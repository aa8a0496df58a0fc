// Answers calls on the services, given as lines on standard input, by lines on standard output; tests/vectors/README.md has their form.
// A line that is no call is answered `? 0 -`.
#![tactic(auto)]

ghost use Rattle.std.specs.Prelude.{◌≡◌, ◌*◌, ◌≤◌, ◌<◌, length, IfOk};
ghost use Rattle.lines.specs.Placed.{Placed};
ghost use Rattle.protocol.specs.Calls.{Called};
ghost use Rattle.lyrecanyon.specs.Answers.{answer_length};
ghost use Rattle.calls.specs.Areas.{room_size, line_size, Areas};

use lines::Line;
use lyrecanyon::Answer;
use protocol::{CallKind, CallLine};
use std::io;
use std::io::{Read, Write};

// The buffer or room that a call is lent. A read writes no more than 32,767 bytes and a record has no more than 4,096,
// so a call that asks for more than 40,000 bytes is answered as with 40,000.
const ROOM_SIZE: usize = 40000;

// The line of an answer: two digits for each byte of room, and 24 more.
const LINE_SIZE: usize = 2 * ROOM_SIZE + 24;

fn room_area() -> [u8; ROOM_SIZE]
    ensures { room_size ≡ length result }
{
    [0; ROOM_SIZE]
}

fn output_area() -> [u8; LINE_SIZE]
    ensures { line_size ≡ length result }
{
    [0; LINE_SIZE]
}

// Lends the service the bytes that the call's words spelled, and room up to the length asked for. The bytes of the answer stand in front of room.
fn answer_call(call: CallLine, bytes: &[u8], room: &mut [u8]) -> Answer
    requires { Called (length bytes.now) call }
    ensures { answer_length result ≤ length room.old }
{
    let lent = call.asked.min(room.len());
    let room = &mut room[..lent];
    let table = &bytes[..call.table];
    let record = &bytes[call.table..call.record];
    let format = &bytes[call.record..call.format];
    let buffer = &bytes[call.format..call.buffer];
    match call.kind {
        CallKind::Read => lyrecanyon::read(table, record, format, room),
        CallKind::History => journals::read_after(table, record, format, room),
        CallKind::Update => lyrecanyon::update(table, record, format, buffer, room),
        CallKind::Empty => lyrecanyon::empty(table, room),
    }
}

// The line of an answer whose bytes stand in front of room, to the front of out; the place after it. That of a read has the length that
// it needs as well.
fn put(kind: CallKind, answer: Answer, room: &[u8], out: &mut [u8]) -> usize
    requires { (answer_length answer ≤ length room.now) × (length room.now ≤ room_size) × (line_size ≤ length out.old) }
    ensures { result ≤ line_size }
{
    let number = lyrecanyon::number(answer);
    let used = lyrecanyon::length_used(answer);
    let bytes = &room[..used];
    match kind {
        CallKind::Read | CallKind::History => {
            let needed = usize::from(lyrecanyon::length_needed(answer));
            protocol::put_read_answer(number, bytes, needed, out, 0)
        }
        CallKind::Update | CallKind::Empty => protocol::put_answer(number, bytes, out, 0),
    }
}

fn answer_line<W: Write>(
    line: &[u8],
    bytes: &mut [u8],
    room: &mut [u8],
    out: &mut [u8],
    writer: &mut W,
) -> io::Result<()>
    requires { (length line.now ≤ 2 * length bytes.old) × (length room.old ≤ room_size) × (line_size ≤ length out.old) }
{
    let end = match protocol::take_call(line, bytes) {
        Some(call) => {
            let answer = answer_call(call, bytes, room);
            put(call.kind, answer, room, out)
        }
        None => protocol::put_no_call(out, 0),
    };
    lines::write(writer, out, end)
}

// Answers the next line of the input, if there is one. After an error the areas have their lengths, and no further line can be asked for.
fn answer_next<R: Read, W: Write>(
    reader: &mut R,
    writer: &mut W,
    input: &mut [u8],
    l: Line,
    bytes: &mut [u8],
    room: &mut [u8],
    out: &mut [u8],
) -> io::Result<Line>
    requires { Areas input.old bytes.old room.old out.old × Placed (length input.old) l × (0 < l.more) }
    ensures placed { IfOk result (λ next. Placed (length input.old) next × (next.more < l.more)) }
    ensures areas { Areas input.new bytes.new room.new out.new }
{
    let next = lines::next(reader, input, l)?;
    if let Some((start, end)) = next.found {
        answer_line(&input[start..end], bytes, room, out, writer)?;
    }
    Ok(next)
}

fn answer_lines<R: Read, W: Write>(
    reader: &mut R,
    writer: &mut W,
    input: &mut [u8],
    bytes: &mut [u8],
    room: &mut [u8],
    out: &mut [u8],
) -> io::Result<()>
    requires { Areas input.old bytes.old room.old out.old }
{
    let mut l = lines::begin();
    while 0 < l.more {
        l = answer_next(reader, writer, input, l, bytes, room, out)?;
    }
    Ok(())
}

fn main(rt: HostRuntime) -> io::Result<()> {
    let mut input = lines::input_area();
    let mut bytes = lines::bytes_area();
    let mut room = room_area();
    let mut out = output_area();
    answer_lines(
        &mut rt.stdin(),
        &mut rt.stdout(),
        &mut input,
        &mut bytes,
        &mut room,
        &mut out,
    )
}
