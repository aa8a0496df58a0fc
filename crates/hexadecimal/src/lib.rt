// Words of a line: byte strings in hexadecimal, and numbers in decimal.
#![tactic(auto)]

ghost use Rattle.std.specs.Prelude.{◌≡◌, true, [], ◌∷◌, ◌++◌, ◌+◌, ◌*◌, ◌≤◌, ◌<◌, ltb, length};
ghost use Rattle.buffer.specs.Splice.{splice};
ghost use Rattle.rules.specs.Lists.{same};
ghost use Rattle.hexadecimal.specs.Text as Text;
ghost use Rattle.hexadecimal.specs.Lines as Lines;
ghost use Rattle.hexadecimal.specs.Answers.{number_read, DecodesWord, TakesWord};

// The place after the bytes that a word gave, and where the next word of the line begins.
#[derive(Clone, Copy)]
pub struct TakenWord {
    pub end: usize,
    pub next: usize,
}

#[tactic(auto, using(std::proofs::lemmas::Bool::Decides::nat_tests), unfolding(crate::specs::Text::value))]
fn is_digit(c: u8) -> bool
    ensures { result ≡ ltb (Text.value c) 16 }
{
    c.is_ascii_hexdigit()
}

// What a hexadecimal digit stands for.
#[tactic(auto, using(std::proofs::lemmas::Bool::Decides::nat_tests), unfolding(crate::specs::Text::value))]
fn value_of(c: u8) -> u8
    requires { Text.value c < 16 }
    ensures { result ≡ Text.value c }
{
    match c {
        b'0'..=b'9' => c - b'0',
        b'A'..=b'F' => c - b'A' + 10,
        _ => c - b'a' + 10,
    }
}

#[tactic(auto, unfolding(crate::specs::Text::glyph))]
fn glyph_of(d: u8) -> u8
    requires { d < 16 }
    ensures { result ≡ Text.glyph d }
{
    if d < 10 { b'0' + d } else { b'a' + d - 10 }
}

#[tactic(auto, unfolding(crate::specs::Text::is_paired))]
fn is_paired(w: &[u8]) -> bool
    ensures { result ≡ Text.is_paired w.now }
{
    2 <= w.len() && w.len() % 2 == 0 && w.iter().all(|c| is_digit(*c))
}

fn pair(high: u8, low: u8) -> u8
    requires { (Text.value high < 16) × (Text.value low < 16) }
    ensures { result ≡ 16 * Text.value high + Text.value low }
{
    16 * value_of(high) + value_of(low)
}

// The byte of each pair of digits, to out from `at`; the place after them.
fn put_pairs(w: &[u8], out: &mut [u8], at: usize) -> usize
    requires { (Text.is_paired w.now ≡ true) × (2 * at + length w.now ≤ 2 * length out.old) }
    ensures { (result ≡ at + length (Text.paired w.now)) × (out.new ≡ splice at (Text.paired w.now) out.old) }
{
    let n = w.len() / 2;
    for i in 0..n {
        out[at + i] = pair(w[2 * i], w[2 * i + 1]);
    }
    at + n
}

// The bytes that a word spells, to out from `at`; a word takes no more than half its own length.
fn decode(word: &[u8], out: &mut [u8], at: usize) -> Option<usize>
    requires { 2 * at + length word.now ≤ 2 * length out.old }
    ensures { DecodesWord word.now at out.old out.new result }
{
    match word {
        b"-" => Some(at),
        _ if is_paired(word) => Some(put_pairs(word, out, at)),
        _ => None,
    }
}

// Two digits for each byte, to out from `at`; the place after them.
fn put_digits(src: &[u8], out: &mut [u8], at: usize) -> usize
    requires { at + 2 * length src.now ≤ length out.old }
    ensures { (result ≡ at + 2 * length src.now) × (out.new ≡ splice at (Text.parted src.now) out.old) }
{
    for (i, &b) in src.iter().enumerate() {
        out[at + 2 * i] = glyph_of(b / 16);
        out[at + 2 * i + 1] = glyph_of(b % 16);
    }
    at + 2 * src.len()
}

// The word that spells the bytes, to out from `at`; the place after it.
pub fn encode(src: &[u8], out: &mut [u8], at: usize) -> usize
    requires { at + (2 * length src.now + 1) ≤ length out.old }
    ensures { (result ≡ at + length (Text.spelling src.now)) × (out.new ≡ splice at (Text.spelling src.now) out.old) }
{
    if src.is_empty() {
        out[at] = b'-';
        return at + 1;
    }
    put_digits(src, out, at)
}

// The number that a word of one to six decimal digits spells.
#[tactic(auto, using(std::proofs::lemmas::Bool::Decides::nat_tests, crate::proofs::Numbers::below_million), unfolding(crate::specs::Text::number, crate::specs::Text::is_number))]
fn read_number(word: &[u8]) -> Option<usize>
    ensures { result ≡ number_read (Text.number word.now) }
{
    if word.is_empty() || 6 < word.len() {
        return None;
    }
    let mut n = 0;
    for &c in word {
        if !c.is_ascii_digit() {
            return None;
        }
        n = n * 10 + usize::from(c - b'0');
    }
    Some(n)
}

fn places(n: usize) -> usize
    requires { n < 1000000 }
    ensures count { result ≡ Text.decimal_places n }
    ensures most { result ≤ 6 }
{
    n.checked_ilog10().unwrap_or(0) as usize + 1
}

// The decimal digits of n, to out from `at`; the place after them.
fn put_number(n: usize, out: &mut [u8], at: usize) -> usize
    requires { (n < 1000000) × (at + 6 ≤ length out.old) }
    ensures { (result ≡ at + length (Text.decimal_word n)) × (out.new ≡ splice at (Text.decimal_word n) out.old) }
{
    let k = places(n);
    let mut rest = n;
    for i in (0..k).rev() {
        out[at + i] = glyph_of((rest % 10) as u8);
        rest /= 10;
    }
    at + k
}

// The bytes of the line's word from `at`, to out from start on. If it spells none, no word follows.
pub fn take_bytes(line: &[u8], at: usize, out: &mut [u8], start: usize) -> TakenWord
    requires { (at ≤ length line.now + 1) × (2 * start ≤ at) × (length line.now ≤ 2 * length out.old) }
    ensures { TakesWord line.now at start out.old out.new result }
{
    let none = TakenWord {
        end: start,
        next: line.len() + 1,
    };
    if line.len() < at {
        return none;
    }
    let stop = buffer::find(line, at, b' ');
    match decode(&line[at..stop], out, start) {
        Some(end) => TakenWord {
            end,
            next: stop + 1,
        },
        None => none,
    }
}

// The number that the line spells from `at`.
pub fn take_number(line: &[u8], at: usize) -> Option<usize>
    ensures { result ≡ number_read (Lines.number_at at line.now) }
{
    read_number(line.get(at..)?)
}

// A number and a last character, to out from `at`; the place after both.
#[tactic(auto, using(crate::proofs::Numbers::decimal_short))]
pub fn put_field(n: usize, last: u8, out: &mut [u8], at: usize) -> usize
    requires { (n < 1000000) × (at + 7 ≤ length out.old) }
    ensures { (result ≡ at + length (Text.decimal_word n ++ (last ∷ []))) × (out.new ≡ splice at (Text.decimal_word n ++ (last ∷ [])) out.old) × (result ≤ at + 7) }
{
    let end = put_number(n, out, at);
    out[end] = last;
    end + 1
}
