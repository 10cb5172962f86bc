//! What a feed of C is about: a unit that is pushed in pieces of any size (section 7.5).
ghost use Rattle.std.specs.Prelude.{◌≡◌};
ghost use Rattle.dw_feed.specs.BodyFeed.{Reading, started};
ghost use Rattle.dw_header.specs.Laws.{HasHeaderBytes};

use dw_abbrev::Table;
use dw_feed::{BodyFeed, HeadFeed};
use dw_header::Header;
use dw_unit::Unit;
use std::alloc::Global;
use std::marker::Model;
use std::rc::Rc;

/// A header that came, and the unit_length before it (section 7.5.1).
#[derive(Drop)]
pub struct Headed {
    header: Header,
    unit_length: u64,
}

impl Model for Headed {
    ghost use Rattle.dw_header.specs.Laws.{HasHeaderBytes};
    ghost use Rattle.rothelduf_c.specs.Headed.{Headed as TheHeaded};

    ghost Value = { TheHeaded };

    ghost view = { λ h. record { header = h.header; unit_length = h.unit_length } };

    ghost invariant = { λ h. HasHeaderBytes h.header h.unit_length };
}

impl Headed {
    pub fn new(header: Header, unit_length: u64) -> Headed
        requires { HasHeaderBytes header unit_length }
        ensures { result ≡ record { header = header; unit_length = unit_length } }
    {
        Headed {
            header,
            unit_length,
        }
    }

    /// Where the table of the unit begins in `.debug_abbrev`.
    pub fn abbrev_offset(&self) -> u64
        ensures { result ≡ self.now.header.abbrev_offset }
    {
        self.header.abbrev_offset()
    }

    /// A feed of what follows the header, over this table.
    pub fn body(&self, alloc: Global, table: Rc<Table>) -> BodyFeed
        ensures { result ≡ Reading (started self.now.header self.now.unit_length table.value) }
    {
        BodyFeed::new(alloc, self.header, self.unit_length, table)
    }
}

/// What a feed is about.
#[derive(Drop)]
pub enum Feeding {
    /// The bytes of a header come next.
    Head(HeadFeed),
    /// A header came. The table of its unit comes next.
    Table(Headed),
    /// What follows the header comes next.
    Body(BodyFeed),
    /// A unit came.
    Whole(Unit),
}
