// The field definition table: whether a slice is one, and what the layers above ask of one.
#![tactic(auto)]

mod entries;
mod groups;
mod lookup;
mod validity;

pub use entries::{
    count, entry_at, field_format, group_at, level_at, multiple_at, periodic_at, size_at,
};
pub use groups::{expand, group_end, plain_group, series};
pub use lookup::{find, find_near, inside, periodic_group};
pub use validity::valid;
use value_formats::Format;

// A decoded entry; a group has no format.
#[derive(Clone, Copy)]
pub struct Entry {
    pub name: u16,
    pub level: u8,
    pub format: Option<Format>,
    pub size: u8,
    pub multiple: bool,
    pub periodic: bool,
}
