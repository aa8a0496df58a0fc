// A format that names one occurrence or one count. Each part has its own place and the places that are not used are blanks, which may
// stand before a comma and before the period: `CB002(005),29 ,U.`, `AA        ,0     .`
use characters::{CLOSE, COMMA, DIGIT_0, LETTER_C, OPEN, PERIOD, SPACE};

pub const SIZE: usize = 17;

const LETTER_U: u8 = 0xE4;

fn digit(n: usize) -> u8 {
    DIGIT_0 + (n % 10) as u8
}

// The name alone.
pub(crate) fn named(name: u16) -> [u8; SIZE] {
    let mut f = [SPACE; SIZE];
    let [first, second] = name.to_be_bytes();
    f[0] = first;
    f[1] = second;
    f[16] = PERIOD;
    f
}

// Its occurrence, or the value of an MU field outside periodic groups.
pub(crate) fn indexed(mut f: [u8; SIZE], i: usize) -> [u8; SIZE] {
    f[2] = digit(i / 100);
    f[3] = digit(i / 10);
    f[4] = digit(i);
    f
}

// The value of an MU field in an occurrence.
pub(crate) fn bracketed(mut f: [u8; SIZE], k: usize) -> [u8; SIZE] {
    f[5] = OPEN;
    f[6] = digit(k / 100);
    f[7] = digit(k / 10);
    f[8] = digit(k);
    f[9] = CLOSE;
    f
}

// The count of what has no index.
pub(crate) fn counted(mut f: [u8; SIZE]) -> [u8; SIZE] {
    f[2] = LETTER_C;
    f
}

// The count of what has an index.
pub(crate) fn counted_in(mut f: [u8; SIZE]) -> [u8; SIZE] {
    f[5] = LETTER_C;
    f
}

// At variable length.
pub(crate) fn variable(mut f: [u8; SIZE]) -> [u8; SIZE] {
    f[10] = COMMA;
    f[11] = DIGIT_0;
    f
}

// As 29 unpacked digits, which hold every packed and unpacked value.
pub(crate) fn unpacked(mut f: [u8; SIZE]) -> [u8; SIZE] {
    f[10] = COMMA;
    f[11] = digit(2);
    f[12] = digit(9);
    f[13] = COMMA;
    f[14] = LETTER_U;
    f
}
