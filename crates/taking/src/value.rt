// One value of the record buffer: to the stage at its field's own format and length.
ghost use Rattle.std.specs.Prelude.{◌≡◌, true, ◌⊎◌, List, ◌∷◌, [], ◌+◌, ◌-◌, ◌≤◌, ◌<◌, length, take, drop, Ok};
ghost use Rattle.rules.specs.Outcome.{done};
ghost use Rattle.rules.specs.Limits.{most_entries, highest_index, longest_alpha};
ghost use Rattle.rules.specs.Values.{allowed, first_value, with_length_byte};
ghost use Rattle.rules.specs.Table.{Entry};
ghost use Rattle.rules.proofs.Ranges.{item_at};
ghost use Rattle.value_formats.specs.Formats.{format_at};
ghost use Rattle.values.specs.Places.{Located};
ghost use Rattle.filling.specs.Filling.{Filling, in_room};
ghost use Rattle.taking.specs.Taking.{Ready, asked_given, given_bytes, Gives, tested_to, noted, TakesGiven, StagesGiven};
ghost use Rattle.assignments.specs.Notes.{note_bound, uses_from};

use crate::Taking;
use rules::Refusal;
use value_formats::Format;

// A field whose values are taken: its entry, the format and the length in effect, its own, and whether its bare name stands for them.
#[derive(Clone, Copy)]
pub struct Given {
    pub entry: usize,
    pub format: Format,
    pub size: usize,
    pub own: Format,
    pub standard: usize,
    pub bare: bool,
}

// The same place, after a value for which the stage has no room.
fn without_room(next: usize, s: Taking) -> Taking
    ensures { result ≡ tested_to next s }
{
    Taking {
        at: next,
        full: true,
        ..s
    }
}

// Whether a value at the format and the length in effect, by its content, is known to be what its field stores.
fn as_stored(content: &[u8], g: Given) -> bool
    requires { (allowed (format_at g.own) g.standard ≡ true) × (((g.size ≡ 0) × (length content.now ≤ longest_alpha)) ⊎ (g.size ≡ length content.now)) }
    ensures { result ≡ true → given_bytes g content.now ≡ done (with_length_byte g.size content.now) }
{
    g.format == g.own
        && g.size == g.standard
        && (values::any_bytes(g.own, g.standard) || values::is_normal(content, g.own, g.standard))
}

// A value that stands in the buffer from `at` up to `next`, and its content from `from` on: to the stage at its field's own format and length.
#[tactic(auto, using(crate::proofs::Finding::value_long, crate::proofs::Finding::value_bytes, crate::proofs::Finding::value_asked))]
fn put_given(
    buffer: &[u8],
    at: usize,
    from: usize,
    next: usize,
    g: Given,
    stage: &mut [u8],
    to: usize,
    write: bool,
) -> Result<usize, Refusal>
    requires { ((es : List Entry) × Gives es g) × Located buffer.now at (first_value g.size (drop at buffer.now)) (Ok (from, next)) × (to ≤ length stage.old) }
    ensures { Filling (in_room (length stage.old - to) (given_bytes g (take (next - from) (drop from buffer.now)))) to write stage.old stage.new result }
{
    if as_stored(&buffer[from..next], g) {
        return filling::put_bytes(&buffer[at..next], stage, to, stage.len(), write);
    }
    if values::numbers::is_value(&buffer[from..next], g.format) {
        return filling::value::put_value(
            &buffer[from..next],
            g.format,
            g.own,
            g.standard,
            stage,
            to,
            stage.len(),
            write,
        );
    }
    Err(Refusal::BadValue)
}

// Notes where value k of entry i in occurrence o stands, if it is value 1 of occurrence 1.
fn note(list: &mut [u16], i: usize, o: usize, k: usize, at: usize)
    requires { (uses_from ≤ length list.old) × (i < most_entries) × (at + 1 < note_bound) }
    ensures { list.new ≡ noted list.old i o k at }
{
    if o == 1 && k == 1 {
        assignments::put(list, i, at);
    }
}

// Value k of a field in occurrence o, whose content stands in the buffer from `from` up to `next`: to the stage, or only tested.
fn stage_value(
    buffer: &[u8],
    from: usize,
    next: usize,
    g: Given,
    o: usize,
    k: usize,
    list: &mut [u16],
    stage: &mut [u8],
    s: Taking,
) -> Result<Taking, Refusal>
    requires { Located buffer.now s.at (first_value g.size (drop s.at buffer.now)) (Ok (from, next)) × (1 ≤ o) × (o ≤ highest_index) × (1 ≤ k) × (k ≤ highest_index) × ((es : List Entry) × Gives es g × Ready es buffer.now list.old stage.old s) }
    ensures { StagesGiven buffer.now g o k from next s list.old list.new stage.old stage.new result }
{
    let to = if s.full { 0 } else { s.staged };
    match put_given(buffer, s.at, from, next, g, stage, to, !s.full) {
        Err(Refusal::BeyondBuffer) => Ok(without_room(next, s)),
        Err(x) => Err(x),
        Ok(_) if s.full => Ok(without_room(next, s)),
        Ok(upto) => {
            note(list, g.entry, o, k, to);
            Ok(Taking {
                at: next,
                staged: upto,
                full: false,
            })
        }
    }
}

// Value k of a field in occurrence o.
pub fn take_value(
    buffer: &[u8],
    g: Given,
    o: usize,
    k: usize,
    list: &mut [u16],
    stage: &mut [u8],
    s: Taking,
) -> Result<Taking, Refusal>
    requires { (1 ≤ o) × (o ≤ highest_index) × (1 ≤ k) × (k ≤ highest_index) × ((es : List Entry) × Gives es g × Ready es buffer.now list.old stage.old s) }
    ensures { TakesGiven buffer.now g (λ es. item_at g.bare (asked_given es g) o k ∷ []) s list.old list.new stage.old stage.new result }
{
    let (from, next) = values::first_value(buffer, s.at, g.size)?;
    stage_value(buffer, from, next, g, o, k, list, stage, s)
}
