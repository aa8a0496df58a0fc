// The elements of a format one after the other, with what each means in a read.
ghost use Rattle.std.specs.Prelude.{◌≡◌, ◌≤◌, length};
ghost use Rattle.tables.specs.Entries.{Valid};
ghost use Rattle.uses.specs.Meanings.{indexes_kept};
ghost use Rattle.lyre.specs.Told.{stops_within};

use rules::Refusal;
use uses::scopes::Scopes;
use uses::{INDEXES, Index, Use};

// What the element at a place means, after the indexes so far.
pub(crate) fn next(
    t: &[u8],
    f: &[u8],
    at: usize,
    last: &mut [Index; INDEXES],
) -> Result<(Use, Scopes, usize), Refusal>
    requires { Valid t.now × (at ≤ length f.now) × (length last.old ≡ indexes_kept) }
    ensures { stops_within f.now at result × (length last.new ≡ indexes_kept) }
{
    let (e, stop) = format_buffer::syntax::next(f, at).ok_or(Refusal::BadSyntax)?;
    let m = uses::use_of(t, last, e);
    let scopes = m.scopes;
    let u = m.meant?;
    uses::remember(t, last, u, scopes.values);
    Ok((u, scopes, stop))
}
