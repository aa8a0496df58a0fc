// Calls and answers as lines: tests/vectors/README.md has their form.
#![tactic(auto)]

ghost use Rattle.std.specs.Prelude.{◌≡◌, ◌+◌, ◌*◌, ◌≤◌, ◌<◌, length, IfSome};
ghost use Rattle.buffer.specs.Splice.{splice};
ghost use Rattle.protocol.specs.Calls.{TakesThree, Called};
ghost use Rattle.protocol.specs.Answers.{no_call_line, AnswersWords, Answers, AnswersRead};

// The service that a call is for; a history is a read of what a journal leaves of a record.
#[derive(Clone, Copy, Debug, PartialEq, Eq)]
pub enum CallKind {
    Read,
    History,
    Update,
    Empty,
}

// A call that a line makes: its kind, where the bytes of its table, record, format and record buffer end, and the length that it
// asks for. A word that the call does not have is empty.
#[derive(Clone, Copy)]
pub struct CallLine {
    pub kind: CallKind,
    pub table: usize,
    pub record: usize,
    pub format: usize,
    pub buffer: usize,
    pub asked: usize,
}

// Where the bytes of a call's table, record and format end, and where its next word begins.
#[derive(Clone, Copy)]
struct Three {
    table: usize,
    record: usize,
    format: usize,
    next: usize,
}

// The bytes of the three words after a line's first word, which is one letter, to out one after the other.
fn take_three(line: &[u8], out: &mut [u8]) -> Three
    requires { (2 ≤ length line.now) × (length line.now ≤ 2 * length out.old) }
    ensures { TakesThree line.now out.old out.new result }
{
    let first = hexadecimal::take_bytes(line, 2, out, 0);
    let second = hexadecimal::take_bytes(line, first.next, out, first.end);
    let third = hexadecimal::take_bytes(line, second.next, out, second.end);
    Three {
        table: first.end,
        record: second.end,
        format: third.end,
        next: third.next,
    }
}

// A read, or a read after a history, which has a journal in the place of the record.
fn take_read(kind: CallKind, line: &[u8], out: &mut [u8]) -> Option<CallLine>
    requires { (2 ≤ length line.now) × (length line.now ≤ 2 * length out.old) }
    ensures { IfSome result (Called (length out.old)) }
{
    let words = take_three(line, out);
    let asked = hexadecimal::take_number(line, words.next)?;
    Some(CallLine {
        kind,
        table: words.table,
        record: words.record,
        format: words.format,
        buffer: words.format,
        asked,
    })
}

fn take_update(line: &[u8], out: &mut [u8]) -> Option<CallLine>
    requires { (2 ≤ length line.now) × (length line.now ≤ 2 * length out.old) }
    ensures { IfSome result (Called (length out.old)) }
{
    let words = take_three(line, out);
    let buffer = hexadecimal::take_bytes(line, words.next, out, words.format);
    let asked = hexadecimal::take_number(line, buffer.next)?;
    Some(CallLine {
        kind: CallKind::Update,
        table: words.table,
        record: words.record,
        format: words.format,
        buffer: buffer.end,
        asked,
    })
}

fn take_empty(line: &[u8], out: &mut [u8]) -> Option<CallLine>
    requires { (2 ≤ length line.now) × (length line.now ≤ 2 * length out.old) }
    ensures { IfSome result (Called (length out.old)) }
{
    let table = hexadecimal::take_bytes(line, 2, out, 0);
    let asked = hexadecimal::take_number(line, table.next)?;
    Some(CallLine {
        kind: CallKind::Empty,
        table: table.end,
        record: table.end,
        format: table.end,
        buffer: table.end,
        asked,
    })
}

// The call that a line makes, by its first word, which is one letter; the bytes of its words, to out one after the other.
pub fn take_call(line: &[u8], out: &mut [u8]) -> Option<CallLine>
    requires { length line.now ≤ 2 * length out.old }
    ensures { IfSome result (Called (length out.old)) }
{
    match line {
        [b'R', b' ', ..] => take_read(CallKind::Read, line, out),
        [b'H', b' ', ..] => take_read(CallKind::History, line, out),
        [b'U', b' ', ..] => take_update(line, out),
        [b'E', b' ', ..] => take_empty(line, out),
        _ => None,
    }
}

// The words of an answer, to out from `at`; the place after them.
fn put_words(number: u8, bytes: &[u8], out: &mut [u8], at: usize) -> usize
    requires { (length bytes.now < 1000000) × (at + (2 * length bytes.now + 15) ≤ length out.old) }
    ensures { AnswersWords number bytes.now at out.old out.new result }
{
    let after_number = hexadecimal::put_field(usize::from(number), b' ', out, at);
    let after_length = hexadecimal::put_field(bytes.len(), b' ', out, after_number);
    hexadecimal::encode(bytes, out, after_length)
}

// The line of an answer, to out from `at`; the place after it.
pub fn put_answer(number: u8, bytes: &[u8], out: &mut [u8], at: usize) -> usize
    requires { (length bytes.now < 1000000) × (at + (2 * length bytes.now + 16) ≤ length out.old) }
    ensures { Answers number bytes.now at out.old out.new result }
{
    let end = put_words(number, bytes, out, at);
    out[end] = b'\n';
    end + 1
}

// The line of a read's answer, which has the length that is needed as its last word, to out from `at`; the place after it.
pub fn put_read_answer(number: u8, bytes: &[u8], needed: usize, out: &mut [u8], at: usize) -> usize
    requires { (length bytes.now < 1000000) × (needed < 1000000) × (at + (2 * length bytes.now + 24) ≤ length out.old) }
    ensures { AnswersRead number bytes.now needed at out.old out.new result }
{
    let end = put_words(number, bytes, out, at);
    out[end] = b' ';
    hexadecimal::put_field(needed, b'\n', out, end + 1)
}

// The line that answers what is no call.
pub fn put_no_call(out: &mut [u8], at: usize) -> usize
    requires { at + 6 ≤ length out.old }
    ensures { (result ≡ at + 6) × (out.new ≡ splice at no_call_line out.old) }
{
    buffer::put(b"? 0 -\n", out, at)
}
