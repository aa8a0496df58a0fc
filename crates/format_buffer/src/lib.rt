// The format buffer: its syntax, one element at a time. A format is any bytes at all.
#![tactic(auto)]

pub mod following;
pub mod numbers;
pub mod pieces;
pub mod syntax;
pub mod texts;

ghost use Rattle.std.specs.Prelude.{◌≡◌};
ghost use Rattle.format_buffer.specs.Elements.{bare_name, with_occurrences, with_values, with_length, with_format};

// How far indexes reach: as they are written, to the last one alone (`N`), or from 1 up to the last (`1-N`).
#[derive(Clone, Copy, Debug, PartialEq, Eq)]
pub enum Scope {
    AsWritten,
    LastAlone,
    UpToLast,
}

// The indexes of a name: from-upto, and how far they reach. The use rules take N as they take 1, so it is 1 here.
#[derive(Clone, Copy)]
pub struct Indexing {
    pub from: u16,
    pub upto: u16,
    pub scope: Scope,
}

impl Indexing {
    // `N`: the last alone.
    pub const LAST: Indexing = Indexing {
        from: 1,
        upto: 1,
        scope: Scope::LastAlone,
    };
}

// A name with what may follow it: its occurrences, its values in parentheses, a length and a format letter.
#[derive(Clone, Copy)]
pub struct Named {
    pub name: u16,
    pub occurrences: Option<Indexing>,
    pub values: Option<Indexing>,
    pub length: Option<u16>,
    pub letter: Option<u8>,
}

impl Named {
    pub fn bare(name: u16) -> Self
        ensures { result ≡ bare_name name }
    {
        Self {
            name,
            occurrences: None,
            values: None,
            length: None,
            letter: None,
        }
    }

    pub fn with_occurrences(self, x: Indexing) -> Self
        ensures { result ≡ with_occurrences self x }
    {
        Self {
            occurrences: Some(x),
            ..self
        }
    }

    // The indexes are copied field by field: copied whole they would stay in memory on the way of every element.
    pub fn with_values(self, x: Indexing) -> Self
        ensures { result ≡ with_values self x }
    {
        Self {
            values: Some(Indexing {
                from: x.from,
                upto: x.upto,
                scope: x.scope,
            }),
            ..self
        }
    }

    pub fn with_length(self, length: u16) -> Self
        ensures { result ≡ with_length self length }
    {
        Self {
            length: Some(length),
            ..self
        }
    }

    pub fn with_format(self, letter: u8) -> Self
        ensures { result ≡ with_format self letter }
    {
        Self {
            letter: Some(letter),
            ..self
        }
    }
}

// A count, or that of one occurrence or of the last.
#[derive(Clone, Copy)]
pub struct Count {
    pub name: u16,
    pub index: Option<Indexing>,
}

// An element. The bytes of a text stand in the format from one place up to another.
#[derive(Clone, Copy)]
pub enum Element {
    Blanks(u8),
    Text(usize, usize),
    Named(Named),
    Count(Count),
    Series(u16, u16),
}
