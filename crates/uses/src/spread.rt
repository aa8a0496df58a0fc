// The occurrences and the values that an element means, by the indexes after its name.
ghost use Rattle.std.specs.Prelude.{◌≡◌, false, ◌<◌};
ghost use Rattle.rules.specs.Use.{in_order, spread};
ghost use Rattle.format_buffer.specs.Elements.{range};
ghost use Rattle.uses.specs.Spread.{index_bound, occurrences, bracket, spread_of, ranged, SpreadInside};

use format_buffer::Named;

// The occurrences and the values that an element means, and whether the bare name of an MU field means them.
#[derive(Clone, Copy)]
pub struct Ranges {
    pub from: usize,
    pub upto: usize,
    pub value_from: usize,
    pub value_upto: usize,
    pub bare: bool,
}

impl Ranges {
    // Occurrence 1 and value 1.
    pub const ONE: Ranges = Ranges {
        from: 1,
        upto: 1,
        value_from: 1,
        value_upto: 1,
        bare: false,
    };
}

// Whether indexes lie in their bounds, and the range does not descend.
#[tactic(auto, unfolding(rules::specs::Use::in_order))]
pub fn in_order(from: usize, upto: usize) -> bool
    ensures { result ≡ in_order (range from upto) }
{
    1 <= from && from <= upto && upto <= rules::HIGHEST_INDEX
}

// Occurrences and values, where both ranges are in order.
#[tactic(auto, unfolding(crate::specs::Spread::ranged))]
fn ranged(from: usize, upto: usize, low: usize, high: usize, bare: bool) -> Option<Ranges>
    ensures { spread_of result ≡ ranged (range from upto) (range low high) bare }
{
    if in_order(from, upto) && in_order(low, high) {
        return Some(Ranges {
            from,
            upto,
            value_from: low,
            value_upto: high,
            bare,
        });
    }
    None
}

// A periodic group, or what lies in one.
#[tactic(auto, using(crate::proofs::Spreading::inside_laws))]
fn spread_inside(multiple: bool, n: Named) -> Option<Ranges>
    ensures { SpreadInside multiple n result }
{
    let o = n.occurrences?;
    match n.values {
        None => ranged(usize::from(o.from), usize::from(o.upto), 1, 1, false),
        Some(v) => {
            if !multiple {
                return None;
            }
            ranged(
                usize::from(o.from),
                usize::from(o.upto),
                usize::from(v.from),
                usize::from(v.upto),
                false,
            )
        }
    }
}

// What lies outside periodic groups.
#[tactic(auto, using(crate::proofs::Spreading::outside_laws))]
fn spread_outside(multiple: bool, last: usize, n: Named) -> Option<Ranges>
    requires { last < index_bound }
    ensures { spread_of result ≡ spread false multiple last (occurrences n) (bracket n) }
{
    if n.values.is_some() {
        return None;
    }
    match n.occurrences {
        Some(v) => {
            if !multiple {
                return None;
            }
            ranged(1, 1, usize::from(v.from), usize::from(v.upto), false)
        }
        None => {
            if multiple {
                return ranged(1, 1, last + 1, last + 1, true);
            }
            ranged(1, 1, 1, 1, false)
        }
    }
}

// The occurrences and the values that a name means, by whether it is a periodic group or in one, whether it is an MU field, and that
// field's last index so far.
pub fn spread(inside: bool, multiple: bool, last: usize, n: Named) -> Option<Ranges>
    requires { last < index_bound }
    ensures { spread_of result ≡ spread inside multiple last (occurrences n) (bracket n) }
{
    if inside {
        return spread_inside(multiple, n);
    }
    spread_outside(multiple, last, n)
}
