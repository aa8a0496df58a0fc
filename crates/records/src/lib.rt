// The stored record: whether a slice is one, where each entry's bytes begin, and where a value lies; and the empty record.
#![tactic(auto)]

ghost use Rattle.std.specs.Prelude.{◌≡◌, ◌<◌, length, get_or};
ghost use Rattle.rules.specs.Table.{is_inside};
ghost use Rattle.tables.specs.Entries.{Valid, entries_of, blank};

pub mod counts;
pub mod empty;
pub mod heads;
pub mod paths;
pub mod places;
pub mod skip;
pub mod walk;

// The directory of a record is one array of numbers in three regions: the place of each entry's part; for each entry, from FIRSTS on, the
// number at which its occurrences are kept; and from KEPT on the places of occurrences, as long as there is room.
const FIRSTS: usize = rules::MOST_ENTRIES;

const KEPT: usize = 2 * rules::MOST_ENTRIES;

const MOST_KEPT: usize = 512;

pub const DIRECTORY: usize = KEPT + MOST_KEPT;

// Whether entry i is a periodic group or lies in one, by whether the entry before it does.
#[tactic(auto, using(crate::proofs::EmptyEntries::inside_tests))]
pub fn inside_next(t: &[u8], i: usize, before: bool) -> bool
    requires { Valid t.now × (i < length (entries_of t.now)) }
    ensures { result ≡ is_inside before (get_or (entries_of t.now) i blank) }
{
    if tables::periodic_at(t, i) {
        return true;
    }
    if before {
        return 1 < tables::level_at(t, i);
    }
    false
}
