// The services for C: each calls that of the crate `lyrecanyon`, returns the number and writes the length used. include/lyrecanyon.h declares
// these functions.
#![tactic(auto)]

ghost use Rattle.std.specs.Prelude.{length, take};
ghost use Rattle.rules.specs.Services as Rules;
ghost use Rattle.lyrecanyon.specs.Answers.{Exported, ExportedNeeding, Applied};

use lyrecanyon::{apply, empty, read, update};

// Fills the record buffer with the items of a format.
#[unsafe(no_mangle)]
pub extern "C" fn lyrecanyon_read(
    table: &[u8],
    stored: &[u8],
    format: &[u8],
    buffer: &mut [u8],
    used: &mut usize,
) -> u8
    ensures { Exported (Rules.read table.now stored.now format.now (length buffer.old)) buffer.old buffer.new used.new result }
{
    let answer = read(table, stored, format, buffer);
    *used = lyrecanyon::length_used(answer);
    lyrecanyon::number(answer)
}

// The same, with the length that is needed too.
#[unsafe(no_mangle)]
pub extern "C" fn lyrecanyon_read_needing(
    table: &[u8],
    stored: &[u8],
    format: &[u8],
    buffer: &mut [u8],
    used: &mut usize,
    needed: &mut usize,
) -> u8
    ensures { ExportedNeeding (Rules.read table.now stored.now format.now (length buffer.old)) buffer.old buffer.new used.new needed.new result }
{
    let answer = read(table, stored, format, buffer);
    *used = lyrecanyon::length_used(answer);
    *needed = usize::from(lyrecanyon::length_needed(answer));
    lyrecanyon::number(answer)
}

// Stores new values: the new record, to the front of the room.
#[unsafe(no_mangle)]
pub extern "C" fn lyrecanyon_update(
    table: &[u8],
    stored: &[u8],
    format: &[u8],
    buffer: &[u8],
    room: &mut [u8],
    used: &mut usize,
) -> u8
    ensures { Exported (Rules.update table.now stored.now format.now buffer.now (length room.old)) room.old room.new used.new result }
{
    let answer = update(table, stored, format, buffer, room);
    *used = lyrecanyon::length_used(answer);
    lyrecanyon::number(answer)
}

// Stores new values where the record stands, which is the first `used` bytes of a slice. The length is that of the new record, or stays where
// the update is refused.
#[unsafe(no_mangle)]
pub extern "C" fn lyrecanyon_apply(
    table: &[u8],
    stored: &mut [u8],
    used: &mut usize,
    format: &[u8],
    buffer: &[u8],
) -> u8
    ensures { Applied (Rules.update table.now (take used.old stored.old) format.now buffer.now (length stored.old)) stored.old stored.new used.old used.new result }
{
    let answer = apply(table, stored, *used, format, buffer);
    if let Ok(n) = answer {
        *used = n;
    }
    lyrecanyon::number(answer)
}

// The empty record of a table, to the front of the room.
#[unsafe(no_mangle)]
pub extern "C" fn lyrecanyon_empty(table: &[u8], room: &mut [u8], used: &mut usize) -> u8
    ensures { Exported (Rules.empty table.now (length room.old)) room.old room.new used.new result }
{
    let answer = empty(table, room);
    *used = lyrecanyon::length_used(answer);
    lyrecanyon::number(answer)
}
