// The service read, after its tests of table and record: one pass over a format tests its elements and items, and writes where it is asked to.
#![tactic(auto)]

ghost use Rattle.std.specs.Prelude.{◌≡◌, ◌-◌, ◌≤◌, length};
ghost use Rattle.tables.specs.Entries.{Valid, entries_of};
ghost use Rattle.format_buffer.specs.Elements.{sound};
ghost use Rattle.uses.specs.Meant.{GoodUse};
ghost use Rattle.uses.specs.Meanings.{GoodScopes, indexes_kept};
ghost use Rattle.records.specs.Places.{HasRecord};
ghost use Rattle.filling.specs.Filling.{Roomy};
ghost use Rattle.reading.specs.Spans.{FillsBy};
ghost use Rattle.reading.specs.Scan.{meaning_items, filled_upto, PutsElement, Scans};

mod cells;
mod meant;
mod spans;

use format_buffer::Element;
use rules::Refusal;
use uses::Use;
use uses::scopes::Scopes;

// Where a scan of a format stands: an element is refused, or else the items so far end at a place or one of them is refused.
type Progress = Result<Result<usize, Refusal>, Refusal>;

// What an element means, by the scopes of its indexes.
fn put_use(
    t: &[u8],
    b: &[u8],
    places: &[u16; records::DIRECTORY],
    f: &[u8],
    u: Use,
    scopes: Scopes,
    out: &mut [u8],
    at: usize,
    end: usize,
    write: bool,
) -> Result<usize, Refusal>
    requires { Valid t.now × GoodUse (entries_of t.now) f.now u × GoodScopes (entries_of t.now) u scopes × HasRecord (entries_of t.now) b.now places.now × Roomy at end out.old }
    ensures { FillsBy (entries_of t.now) b.now places.now (λ x. meaning_items (entries_of t.now) f.now u scopes x) at end write out.old out.new result }
{
    match u {
        Use::Blanks(n) => filling::put_blanks(n, out, at, end, write),
        Use::Text(from, upto) => filling::put_bytes(&f[from..upto], out, at, end, write),
        Use::GroupCount(i) => {
            let count = records::places::group_count(t, b, places, i);
            filling::put_count(count as u8, out, at, end, write)
        }
        Use::ValueCount(i, k) => {
            let o = meant::occurrence_meant(t, b, places, i, k, scopes.occurrences);
            let count = records::places::value_count(t, b, places, i, o);
            filling::put_count(count as u8, out, at, end, write)
        }
        Use::Values(s) => {
            let meant = meant::occurrences_meant(t, b, places, s, scopes.occurrences);
            if meant.upto < meant.from {
                return Ok(at);
            }
            spans::put_span(t, b, places, meant, scopes.values, out, at, end, write)
        }
    }
}

// One element more. After an element that is refused only the syntax of the others matters, after an item that is refused only their
// uses too.
fn put_element(
    t: &[u8],
    b: &[u8],
    places: &[u16; records::DIRECTORY],
    f: &[u8],
    e: Element,
    last: &mut [uses::Index; uses::INDEXES],
    state: Progress,
    out: &mut [u8],
    end: usize,
    write: bool,
) -> Progress
    requires { Valid t.now × sound f.now e × (length last.old ≡ indexes_kept) × HasRecord (entries_of t.now) b.now places.now × Roomy (filled_upto state) end out.old }
    ensures { PutsElement (entries_of t.now) b.now places.now f.now end write e last.old last.new state out.old out.new result }
{
    let items = state?;
    let m = uses::use_of(t, last, e);
    // Written out, and not `m.meant?`, so that an edit can take a refused element for an item.
    match m.meant {
        Err(x) => Err(x),
        Ok(u) => {
            uses::remember(t, last, u, m.scopes.values);
            match items {
                Ok(p) => Ok(put_use(t, b, places, f, u, m.scopes, out, p, end, write)),
                Err(_) => state,
            }
        }
    }
}

// The items of a format at the front of out, which has room up to end: where they end, or the first refusal, of the whole format's
// syntax, then of its elements, then of its items.
pub fn scan(
    t: &[u8],
    b: &[u8],
    places: &[u16; records::DIRECTORY],
    f: &[u8],
    out: &mut [u8],
    end: usize,
    write: bool,
) -> Result<usize, Refusal>
    requires { Valid t.now × HasRecord (entries_of t.now) b.now places.now × (end ≤ length out.old) }
    ensures { Scans (entries_of t.now) b.now places.now f.now end write out.old out.new result }
{
    if rules::LONGEST_FORMAT < f.len() {
        return Err(Refusal::BadSyntax);
    }
    let mut last: [uses::Index; uses::INDEXES] = [0; uses::INDEXES];
    let mut state = Ok(Ok(0));
    let mut at = 0;
    loop {
        let (e, stop) = format_buffer::syntax::next(f, at).ok_or(Refusal::BadSyntax)?;
        state = put_element(t, b, places, f, e, &mut last, state, out, end, write);
        if format_buffer::syntax::is_last(f, stop) {
            return state?;
        }
        at = stop + 1;
    }
}
