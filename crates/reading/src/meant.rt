// The occurrences that are meant, by how far they reach and how many are stored.
ghost use Rattle.std.specs.Prelude.{◌≡◌, true, ◌≤◌, ◌<◌, length};
ghost use Rattle.rules.specs.Limits.{highest_index};
ghost use Rattle.tables.specs.Entries.{Valid, entries_of, is_multiple, what_at};
ghost use Rattle.uses.specs.Meant.{GoodSpan};
ghost use Rattle.records.specs.Places.{HasRecord, OneOutside};
ghost use Rattle.reading.specs.Spans.{MeantSpan, OccurrenceMeant, StoredCount, ReachesInside};

use format_buffer::Scope;
use uses::Span;
use uses::scopes::{resolved_from, resolved_upto};

// How many occurrences are stored of the periodic group in which entry i lies.
fn occurrences_stored(t: &[u8], b: &[u8], places: &[u16; records::DIRECTORY], i: usize) -> usize
    requires { Valid t.now × (i < length (entries_of t.now)) × HasRecord (entries_of t.now) b.now places.now }
    ensures { (result ≤ highest_index) × StoredCount (entries_of t.now) b.now places.now i result }
{
    match tables::periodic_group(t, i) {
        Some(g) => records::places::group_count(t, b, places, g),
        None => 0,
    }
}

// The occurrence o of entry i, an MU field, or the last one.
pub fn occurrence_meant(
    t: &[u8],
    b: &[u8],
    places: &[u16; records::DIRECTORY],
    i: usize,
    o: usize,
    scope: Scope,
) -> usize
    requires { Valid t.now × (i < length (entries_of t.now)) × (is_multiple (what_at (entries_of t.now) i) ≡ true) × (1 ≤ o) × OneOutside (entries_of t.now) i o × ReachesInside (entries_of t.now) i scope × (scope ≡ Scope.UpToLast → ⊥) × HasRecord (entries_of t.now) b.now places.now }
    ensures { OccurrenceMeant (entries_of t.now) b.now places.now i o scope result }
{
    match scope {
        Scope::AsWritten => o,
        _ => resolved_upto(scope, o, o, occurrences_stored(t, b, places, i)),
    }
}

// A span with the occurrences that are meant, by how far they reach.
pub fn occurrences_meant(
    t: &[u8],
    b: &[u8],
    places: &[u16; records::DIRECTORY],
    s: Span,
    scope: Scope,
) -> Span
    requires { Valid t.now × GoodSpan (entries_of t.now) s × ReachesInside (entries_of t.now) s.first scope × HasRecord (entries_of t.now) b.now places.now }
    ensures { MeantSpan (entries_of t.now) b.now places.now s scope result }
{
    match scope {
        Scope::AsWritten => s,
        _ => {
            let n = occurrences_stored(t, b, places, s.first);
            Span {
                from: resolved_from(scope, s.from, s.upto, n),
                upto: resolved_upto(scope, s.from, s.upto, n),
                ..s
            }
        }
    }
}
