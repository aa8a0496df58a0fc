// The entry that has a name, and the periodic group that an entry lies in.
ghost use Rattle.std.specs.Prelude.{◌≡◌, ◌<◌, length};
ghost use Rattle.tables.specs.Entries.{Valid, entries_of};
ghost use Rattle.tables.specs.Places.{Finds, Homes, inside_at};

use crate::entries;

// The entry that has a name.
#[tactic(auto, using(crate::proofs::Tables::valid_steps, crate::proofs::Names::find_steps))]
pub fn find(t: &[u8], name: u16) -> Option<usize>
    requires { Valid t.now }
    ensures { Finds name (entries_of t.now) result }
{
    for i in 0..entries::count(t) {
        if entries::name_at(t, i) == name {
            return Some(i);
        }
    }
    None
}

// The entry that has a name: the one given, where it has it, else the first that does.
#[tactic(auto, using(crate::proofs::Tables::valid_steps, crate::proofs::Known::name_finds))]
pub fn find_near(t: &[u8], near: usize, name: u16) -> Option<usize>
    requires { Valid t.now }
    ensures { Finds name (entries_of t.now) result }
{
    if near < entries::count(t) && entries::name_at(t, near) == name {
        return Some(near);
    }
    find(t, name)
}

// The periodic group that entry i is or lies in: the last entry of level 1 up to it, where that one is periodic.
#[tactic(auto, using(crate::proofs::Tables::valid_climbs, crate::proofs::Climbs::climb_steps))]
pub fn periodic_group(t: &[u8], i: usize) -> Option<usize>
    requires { Valid t.now × (i < length (entries_of t.now)) }
    ensures { Homes (entries_of t.now) i result }
{
    let mut j = i;
    while entries::level_at(t, j) != 1 {
        j -= 1;
    }
    entries::periodic_at(t, j).then_some(j)
}

// Whether entry i is a periodic group or lies in one.
pub fn inside(t: &[u8], i: usize) -> bool
    requires { Valid t.now × (i < length (entries_of t.now)) }
    ensures { result ≡ inside_at (entries_of t.now) i }
{
    periodic_group(t, i).is_some()
}
