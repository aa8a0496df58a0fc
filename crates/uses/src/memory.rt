// What is kept along a format, from one element to the next.
ghost use Rattle.std.specs.Prelude.{◌≡◌, length};
ghost use Rattle.tables.specs.Entries.{Valid, entries_of};
ghost use Rattle.uses.specs.Meant.{GoodSpan, GoodSpanOf};
ghost use Rattle.uses.specs.Meanings.{indexes_kept, Remembered};

use crate::{AFTER_N, INDEXES, Index, NEAR, Span, Use};
use format_buffer::Scope;

// Keeps the number after the entries of a span, and the last index of its MU field, by how far its values reach.
#[tactic(auto, using(tables::proofs::Tables::valid_most, crate::proofs::Remembering::written_remembered))]
fn remember_span(t: &[u8], last: &mut [Index; INDEXES], s: Span, scope: Scope)
    requires { Valid t.now × GoodSpan (entries_of t.now) s × (length last.old ≡ indexes_kept) }
    ensures { Remembered (entries_of t.now) (Use.Values s) scope last.old last.new }
{
    last[NEAR] = s.end as Index;
    let i = s.first;
    if s.standard || !tables::multiple_at(t, i) {
        return;
    }
    match scope {
        Scope::AsWritten => {
            last[i] = s.value_upto as Index;
        }
        _ => {
            last[i] = AFTER_N;
        }
    }
}

// Keeps the last index so far of each MU field, and where the next name is looked for first, after what an element meant, by how far its
// values reach.
pub fn remember(t: &[u8], last: &mut [Index; INDEXES], u: Use, scope: Scope)
    requires { Valid t.now × GoodSpanOf (entries_of t.now) u × (length last.old ≡ indexes_kept) }
    ensures { Remembered (entries_of t.now) u scope last.old last.new }
{
    if let Use::Values(s) = u {
        remember_span(t, last, s, scope);
    }
}
