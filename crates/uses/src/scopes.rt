// How far the indexes of an element reach: as they are written; to the last one that is stored, N; or from 1 up to it, 1-N.
ghost use Rattle.std.specs.Prelude.{◌≡◌, ◌<◌, length};
ghost use Rattle.format_buffer.specs.Elements.{range};
ghost use Rattle.rules.specs.Last.{resolved};
ghost use Rattle.tables.specs.Entries.{Valid, entries_of};
ghost use Rattle.tables.specs.Places.{inside_at};
ghost use Rattle.uses.specs.Scopes.{scope_at, is_written, both_written, scope_given, scopes_of_count, scopes_of_name};

use crate::Use;
use format_buffer::{Count, Indexing, Named, Scope};
use rules::Refusal;

// The scope of the occurrences that an element names, and that of the values.
#[derive(Clone, Copy, Debug, PartialEq, Eq)]
pub struct Scopes {
    pub occurrences: Scope,
    pub values: Scope,
}

// What an element of a read means, with how far its indexes reach.
#[derive(Clone, Copy)]
pub struct Meaning {
    pub meant: Result<Use, Refusal>,
    pub scopes: Scopes,
}

pub fn both_written() -> Scopes
    ensures { result ≡ both_written }
{
    Scopes {
        occurrences: Scope::AsWritten,
        values: Scope::AsWritten,
    }
}

// Whether an element has no N.
pub fn is_written(s: Scopes) -> bool
    ensures { result ≡ is_written s }
{
    s.occurrences == Scope::AsWritten && s.values == Scope::AsWritten
}

// How far indexes reach, where there are any.
fn scope_given(indexes: Option<Indexing>) -> Scope
    ensures { result ≡ scope_given indexes }
{
    match indexes {
        Some(x) => x.scope,
        None => Scope::AsWritten,
    }
}

// The scopes of a count.
pub fn of_count(c: Count) -> Scopes
    ensures { result ≡ scopes_of_count c }
{
    Scopes {
        occurrences: scope_given(c.index),
        values: Scope::AsWritten,
    }
}

// The scopes of a name that stands for entry i: its index is one of its occurrences in a periodic group, and outside one of its values.
pub fn of_name(t: &[u8], i: usize, n: Named) -> Scopes
    requires { Valid t.now × (i < length (entries_of t.now)) }
    ensures { result ≡ scopes_of_name (inside_at (entries_of t.now) i) n }
{
    let first = scope_given(n.occurrences);
    let second = scope_given(n.values);
    if first == Scope::AsWritten && second == Scope::AsWritten {
        return both_written();
    }
    if tables::inside(t, i) {
        return Scopes {
            occurrences: first,
            values: second,
        };
    }
    Scopes {
        occurrences: Scope::AsWritten,
        values: first,
    }
}

// The first of the indexes that are meant, and the last, where `stored` are stored.
pub fn resolved_from(scope: Scope, from: usize, upto: usize, stored: usize) -> usize
    ensures { result ≡ (resolved (scope_at scope) (range from upto) stored).from }
{
    match scope {
        Scope::AsWritten => from,
        Scope::LastAlone => stored.max(1),
        Scope::UpToLast => 1,
    }
}

pub fn resolved_upto(scope: Scope, from: usize, upto: usize, stored: usize) -> usize
    ensures { result ≡ (resolved (scope_at scope) (range from upto) stored).upto }
{
    match scope {
        Scope::AsWritten => upto,
        Scope::LastAlone => stored.max(1),
        Scope::UpToLast => stored,
    }
}
