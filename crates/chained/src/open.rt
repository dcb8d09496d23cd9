// A store over bytes.
ghost use Rattle.std.specs.Prelude.{◌≡◌, true, false, codes, Some, MatchResult};
ghost use Rattle.layout.specs.Layout.{lawful};
ghost use Rattle.chained.specs.Means.{meaning, Reopens};

use crate::table::{Chained, Table};
use layout::header::objects_in;
use layout::lawful::is_lawful;
use std::error::Error;
use std::fmt;

// The bytes are not lawful.
#[derive(Clone, Copy, PartialEq, Eq, Debug)]
pub struct Unlawful;

impl fmt::Display for Unlawful {
    ghost output = { λ _. Some (codes "the bytes are not a lawful table") };

    fn fmt<W: fmt::Write>(&self, f: &mut fmt::Formatter<W>) -> fmt::Result {
        f.write_str("the bytes are not a lawful table")
    }
}

impl Error for Unlawful {}

impl<'a> Chained<'a> {
    // A store over the bytes, which has no objects where they are not lawful.
    pub fn new(bytes: &'a mut [u8]) -> Chained<'a>
        ensures { result.table.bytes.now ≡ bytes.old }
    {
        let objects = if is_lawful(bytes) {
            objects_in(bytes)
        } else {
            0
        };
        Chained {
            table: Table { bytes },
            objects,
        }
    }

    // Whether the store is over lawful bytes.
    pub fn opened(&self) -> Result<(), Unlawful>
        ensures { MatchResult result (λ _. lawful self.now.table.bytes.now ≡ true) (λ _. lawful self.now.table.bytes.now ≡ false) }
    {
        if self.objects == 0 {
            return Err(Unlawful);
        }
        Ok(())
    }

    // The bytes under the store.
    pub fn bytes(&self) -> &[u8]
        ensures { Reopens (meaning self.now.table.bytes.now) result.now }
    {
        self.table.bytes
    }

    // Ends the store, and gives the slice back that it was made over.
    pub fn into_bytes(self) -> &'a mut [u8]
        ensures { Reopens (meaning self.entry.table.bytes.now) result.now }
    {
        let Chained { table, objects: _ } = self;
        table.into_bytes()
    }
}
