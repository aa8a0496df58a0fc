// Which assignments a cell takes: the uses of a format by the entry and the occurrence that they name, and where the values that they give
// stand on a stage, one after the other.
#![tactic(auto)]

ghost use Rattle.std.specs.Prelude.{◌≡◌, ◌+◌, ◌≤◌, ◌<◌, length, set};
ghost use Rattle.rules.specs.Limits.{most_entries};
ghost use Rattle.assignments.specs.Notes.{note_bound, note_place, uses_from};
ghost use Rattle.assignments.specs.Answers.{first_put};

mod chains;
mod finding;

pub use chains::index;
pub use finding::{assigned, highest_occurrence, named};

// The numbers of a list: the heads of the chains, of which a use of one field in one occurrence has one by both, one of one field in several
// occurrences one by the field, and those of several fields the last.
const CELLS: usize = 256;

const GROUPS: usize = CELLS + rules::MOST_ENTRIES;

// Of each entry the highest occurrence named, one above where value 1 of its occurrence 1 stands, and the width of the entries before it.
const HIGHEST: usize = GROUPS + 1;

const FIRSTS: usize = HIGHEST + rules::MOST_ENTRIES;

const WIDTHS: usize = FIRSTS + rules::MOST_ENTRIES;

// And of each use where its values begin, and one above the number of the next use of its chain.
pub const USES: usize = WIDTHS + (rules::MOST_ENTRIES + 1);

pub const NUMBERS: usize = 2;

// The numbers of the values that one field may have in one occurrence, and 0.
pub const VALUES: usize = rules::HIGHEST_INDEX + 1;

// What is named of a field in one occurrence: the highest value, 0 where none is named, and whether it is named by bare names only.
#[derive(Clone, Copy)]
pub struct Naming {
    pub highest: usize,
    pub bare: bool,
}

// The values of use n begin at a place of the stage.
pub fn begin(list: &mut [u16], n: usize, at: usize)
    requires { (note_place (n + 1) ≤ length list.old) × (at < note_bound) }
    ensures { list.new ≡ set list.old (note_place n) at }
{
    list[USES + NUMBERS * n] = at as u16;
}

// Value 1 of entry i in occurrence 1 stands at a place of the stage, if it is the first that is given to it.
#[tactic(auto, unfolding(crate::specs::Answers::first_put))]
pub fn put(list: &mut [u16], i: usize, at: usize)
    requires { (uses_from ≤ length list.old) × (i < most_entries) × (at + 1 < note_bound) }
    ensures { list.new ≡ first_put list.old i at }
{
    if list[FIRSTS + i] == 0 {
        list[FIRSTS + i] = (at + 1) as u16;
    }
}
