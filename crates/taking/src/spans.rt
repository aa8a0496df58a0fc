// The values of a span, one after the other: its occurrences, in each its fields, and of each field its values.
#![tactic(auto, using(crate::proofs::Turns::turn_start, crate::proofs::Turns::turn_ready, crate::proofs::Turns::turn_end, uses::proofs::Spreading::ordered_within, rules::proofs::Ranges::no_occurrence))]

ghost use Rattle.std.specs.Prelude.{◌≡◌, false, List, ◌+◌, ◌≤◌, ◌<◌};
ghost use Rattle.rules.specs.Limits.{highest_index};
ghost use Rattle.rules.specs.Table.{Entry};
ghost use Rattle.tables.specs.Entries.{Valid, entries_of, is_group, what_at};
ghost use Rattle.tables.specs.Groups.{field_at};
ghost use Rattle.uses.specs.Meant.{GoodSpan};
ghost use Rattle.taking.specs.Taking.{Takes, Ready, asked_given, Gives, asked_as, items_between, TakesGiven, values_taken, occurrence_taken, span_taken};

use crate::value::Given;
use crate::{Taking, value};
use rules::Refusal;
use uses::Span;

// The values of a field in occurrence o, from value `first` to value `last`. The state is made anew from its fields, so that the gap at its
// end is not copied with each value.
fn take_values(
    buffer: &[u8],
    g: Given,
    o: usize,
    first: usize,
    last: usize,
    list: &mut [u16],
    stage: &mut [u8],
    s: Taking,
) -> Result<Taking, Refusal>
    requires { (1 ≤ o) × (o ≤ highest_index) × (1 ≤ first) × (last ≤ highest_index) × ((es : List Entry) × Gives es g × Ready es buffer.now list.old stage.old s) }
    ensures { TakesGiven buffer.now g (values_taken g o first last) s list.old list.new stage.old stage.new result }
{
    let mut state = s;
    for k in first..=last {
        let next = value::take_value(buffer, g, o, k, list, stage, state)?;
        state = Taking {
            at: next.at,
            staged: next.staged,
            full: next.full,
        };
    }
    Ok(state)
}

// The field of entry i, as a span asks for it.
fn given_at(t: &[u8], i: usize, s: Span) -> Given
    requires { Valid t.now × GoodSpan (entries_of t.now) s × (s.first ≤ i) × (i < s.end) × (is_group (what_at (entries_of t.now) i) ≡ false) }
    ensures { (result.entry ≡ i) × (result.bare ≡ s.bare) × Gives (entries_of t.now) result × (asked_given (entries_of t.now) result ≡ asked_as s.standard s (field_at (entries_of t.now) i)) }
{
    let own = tables::field_format(t, i);
    let standard = tables::size_at(t, i);
    let (format, size) = if s.standard {
        (own, standard)
    } else {
        (s.format, s.size)
    };
    Given {
        entry: i,
        format,
        size,
        own,
        standard,
        bare: s.bare,
    }
}

// Entry i of a span in occurrence o: a group takes nothing.
fn take_entry(
    t: &[u8],
    buffer: &[u8],
    u: Span,
    i: usize,
    o: usize,
    list: &mut [u16],
    stage: &mut [u8],
    s: Taking,
) -> Result<Taking, Refusal>
    requires { Valid t.now × GoodSpan (entries_of t.now) u × (u.first ≤ i) × (i < u.end) × (1 ≤ o) × (o ≤ highest_index) × Ready (entries_of t.now) buffer.now list.old stage.old s }
    ensures { Takes (entries_of t.now) buffer.now (items_between (entries_of t.now) u o i (i + 1)) s list.old list.new stage.old stage.new result }
{
    if tables::group_at(t, i) {
        return Ok(s);
    }
    take_values(
        buffer,
        given_at(t, i, u),
        o,
        u.value_from,
        u.value_upto,
        list,
        stage,
        s,
    )
}

// The fields of a span in occurrence o.
fn take_fields(
    t: &[u8],
    buffer: &[u8],
    u: Span,
    o: usize,
    list: &mut [u16],
    stage: &mut [u8],
    s: Taking,
) -> Result<Taking, Refusal>
    requires { Valid t.now × GoodSpan (entries_of t.now) u × (1 ≤ o) × (o ≤ highest_index) × Ready (entries_of t.now) buffer.now list.old stage.old s }
    ensures { Takes (entries_of t.now) buffer.now (occurrence_taken (entries_of t.now) u o) s list.old list.new stage.old stage.new result }
{
    let mut state = s;
    for i in u.first..u.end {
        state = take_entry(t, buffer, u, i, o, list, stage, state)?;
    }
    Ok(state)
}

// The occurrences of a span.
pub fn take_occurrences(
    t: &[u8],
    buffer: &[u8],
    u: Span,
    list: &mut [u16],
    stage: &mut [u8],
    s: Taking,
) -> Result<Taking, Refusal>
    requires { Valid t.now × GoodSpan (entries_of t.now) u × Ready (entries_of t.now) buffer.now list.old stage.old s }
    ensures { Takes (entries_of t.now) buffer.now (span_taken (entries_of t.now) u) s list.old list.new stage.old stage.new result }
{
    let mut state = s;
    for o in u.from..=u.upto {
        state = take_fields(t, buffer, u, o, list, stage, state)?;
    }
    Ok(state)
}
