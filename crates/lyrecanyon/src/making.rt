// The new record of an update, made in an array of its own.
ghost use Rattle.std.specs.Prelude.{◌≡◌, List, ◌*◌, ◌≤◌, length, take};
ghost use Rattle.rules.specs.Limits.{longest_items, longest_new_record};
ghost use Rattle.rules.specs.Lists.{Bytes};
ghost use Rattle.rules.specs.Outcome.{Outcome, done};
ghost use Rattle.rules.specs.Services.{assignments_of};
ghost use Rattle.rules.specs.Services as Rules;
ghost use Rattle.tables.specs.Entries.{Valid, entries_of};
ghost use Rattle.uses.specs.Kept.{numbers_kept, element_bytes};
ghost use Rattle.records.specs.Places.{HasRecord};
ghost use Rattle.updating.specs.New.{HasBoth, Assigns};
ghost use Rattle.rules.specs.Update.{Assignment};
ghost use Rattle.lyrecanyon.specs.Answers.{Settled};
ghost use Rattle.lyrecanyon.specs.Making.{Makes, MakesNew, Apart, Fresh, in_lent, MakesItems, FreshFor};

use crate::Answer;
use records::DIRECTORY;
use rules::Refusal;
use uses::Index;

// The longest of the formats whose uses are kept in the smaller areas: areas are cleared, and most calls are short. An element takes three
// bytes of a format at least.
const SHORT_FORMAT: usize = 96;

const FEW_USES: usize = 32;

const MOST_USES: usize = 683;

// The record, by the assignments on the stage.
fn make_record(
    table: &[u8],
    stored: &[u8],
    places: &[u16; DIRECTORY],
    kept: &[Index],
    list: &[u16],
    stage: &[u8],
    made: &mut [u8],
) -> Answer
    requires { Valid table.now × HasBoth (entries_of table.now) stored.now places.now kept.now list.now stage.now × (length made.old ≡ longest_new_record) }
    ensures { (ws : List Assignment) → Assigns (entries_of table.now) kept.now list.now stage.now ws → MakesNew (entries_of table.now) stored.now places.now (done ws) made.new result }
{
    let answer = updating::put_record(table, stored, places, kept, list, stage, made);
    answer.map_err(|_| Refusal::NoRoom)
}

// The same, by the items of the uses that are kept.
fn make_items(
    table: &[u8],
    stored: &[u8],
    places: &[u16; DIRECTORY],
    buffer: &[u8],
    kept: &[Index],
    count: usize,
    list: &mut [u16],
    made: &mut [u8],
) -> Answer
    requires { Valid table.now × HasRecord (entries_of table.now) stored.now places.now × ((f : Bytes) × Apart (entries_of table.now) f kept.now count) × Fresh count list.old × (length made.old ≡ longest_new_record) }
    ensures { MakesItems (entries_of table.now) stored.now places.now kept.now count buffer.now made.new result }
{
    let mut stage = [0u8; rules::LONGEST_NEW_RECORD];
    let taken = taking::take(table, buffer, kept, count, list, &mut stage)?;
    if taken.full {
        return Err(Refusal::NoRoom);
    }
    assignments::index(table, kept, list, count);
    make_record(table, stored, places, kept, list, &stage, made)
}

// The same, by the record buffer up to its limit.
fn make_limited(
    table: &[u8],
    stored: &[u8],
    places: &[u16; DIRECTORY],
    buffer: &[u8],
    kept: &[Index],
    count: usize,
    list: &mut [u16],
    made: &mut [u8],
) -> Answer
    requires { Valid table.now × HasRecord (entries_of table.now) stored.now places.now × ((f : Bytes) × Apart (entries_of table.now) f kept.now count) × Fresh count list.old × (length made.old ≡ longest_new_record) }
    ensures { MakesItems (entries_of table.now) stored.now places.now kept.now count (take longest_items buffer.now) made.new result }
{
    let end = buffer.len().min(rules::LONGEST_ITEMS);
    make_items(
        table,
        stored,
        places,
        &buffer[..end],
        kept,
        count,
        list,
        made,
    )
}

// The same, by the format, whose uses are decoded once.
#[tactic(auto, using(crate::proofs::Makings::named_refused, crate::proofs::Makings::items_given, crate::proofs::Makings::are_apart))]
fn make_decoded(
    table: &[u8],
    stored: &[u8],
    places: &[u16; DIRECTORY],
    format: &[u8],
    buffer: &[u8],
    kept: &mut [Index],
    list: &mut [u16],
    made: &mut [u8],
) -> Answer
    requires { Valid table.now × HasRecord (entries_of table.now) stored.now places.now × (numbers_kept * length format.now ≤ element_bytes * length kept.old) × FreshFor kept.old list.old × (length made.old ≡ longest_new_record) }
    ensures { MakesNew (entries_of table.now) stored.now places.now (assignments_of (entries_of table.now) format.now buffer.now) made.new result }
{
    let n = uses::kept::decode(table, format, kept)?;
    if uses::twice::named_twice(table, kept, n) {
        return Err(Refusal::NamedTwice);
    }
    make_limited(table, stored, places, buffer, kept, n, list, made)
}

// The same, in areas for the uses by the length of the format.
fn make_assigned(
    table: &[u8],
    stored: &[u8],
    places: &[u16; DIRECTORY],
    format: &[u8],
    buffer: &[u8],
    made: &mut [u8],
) -> Answer
    requires { Valid table.now × HasRecord (entries_of table.now) stored.now places.now × (length made.old ≡ longest_new_record) }
    ensures { MakesNew (entries_of table.now) stored.now places.now (assignments_of (entries_of table.now) format.now buffer.now) made.new result }
{
    if format.len() <= SHORT_FORMAT {
        let mut kept: [Index; uses::kept::NUMBERS * FEW_USES] = [0; uses::kept::NUMBERS * FEW_USES];
        let mut list = [0u16; assignments::USES + assignments::NUMBERS * FEW_USES];
        return make_decoded(
            table, stored, places, format, buffer, &mut kept, &mut list, made,
        );
    }
    if rules::LONGEST_FORMAT < format.len() {
        return Err(Refusal::BadSyntax);
    }
    let mut kept: [Index; uses::kept::NUMBERS * MOST_USES] = [0; uses::kept::NUMBERS * MOST_USES];
    let mut list = [0u16; assignments::USES + assignments::NUMBERS * MOST_USES];
    make_decoded(
        table, stored, places, format, buffer, &mut kept, &mut list, made,
    )
}

// The new record of an update, to the front of an array that has room for the longest.
pub fn make(table: &[u8], stored: &[u8], format: &[u8], buffer: &[u8], made: &mut [u8]) -> Answer
    requires { length made.old ≡ longest_new_record }
    ensures { Makes (Rules.update table.now stored.now format.now buffer.now longest_new_record) made.new result }
{
    if !tables::valid(table) {
        return Err(Refusal::BadTable);
    }
    let mut places = [0u16; DIRECTORY];
    if !records::walk::check(table, stored, &mut places) {
        return Err(Refusal::BadRecord);
    }
    make_assigned(table, stored, &places, format, buffer, made)
}

// A record that was made, to the front of the room that is lent for it, if it has room enough.
#[tactic(auto, using(crate::proofs::Updates::lending), unfolding(rules::specs::Lists::bytes_of, buffer::specs::Splice::splice))]
pub fn lend(answer: Answer, made: &[u8], room: &mut [u8]) -> Answer
    requires { (o : Outcome Bytes) × Makes o made.now answer }
    ensures { (o : Outcome Bytes) → Makes o made.now answer → Settled (in_lent (length room.old) o) room.old room.new result }
{
    let n = answer?;
    if room.len() < n {
        return Err(Refusal::NoRoom);
    }
    buffer::put(&made[..n], room, 0);
    Ok(n)
}
