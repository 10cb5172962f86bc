//! A unit that is pushed in pieces behind its header (section 7.5).
ghost use Rattle.std.specs.Prelude.{◌≡◌, ◌≤◌, [], length};
ghost use Rattle.dw_header.specs.Laws.{HasHeaderBytes};
ghost use Rattle.dw_feed.specs.BodyFeed.{Reading, started, FeedsBody, EndsBody};
ghost use Rattle.dw_feed.specs.EmptyPiece.{Rests};
ghost use Rattle.dw_feed.specs.FaultFirst.{FaultFirst};
ghost use Rattle.dw_feed.specs.HeldCounts.{held};
ghost use Rattle.dw_feed.specs.BodyFeedView.{IsBodyFeed};
ghost use Rattle.dw_feed.specs.HeldView.{held_of, HeldWithin, padding_of, taken_by};

use crate::code::is_cut;
use crate::held::Held;
use crate::progress::Progress;
use crate::step::Taken;
use crate::unit_in_parts::UnitInParts;
use dw_abbrev::Table;
use dw_leb::Fault;
use dw_unit::{Header, Unit};
use std::alloc::Global;
use std::marker::Model;
use std::rc::Rc;

/// The bytes of a unit behind its header, that are pushed in pieces of any size: its entries, over a table
/// that is handed in, and its padding (sections 7.5.2 and 7.5.3). The unit, or its fault, is answered at the
/// first byte that shows it. What came is kept as the unit's tree, and of a field that isn't whole at most
/// sixteen bytes.
#[derive(Debug, Drop)]
pub struct BodyFeed {
    coming: Option<UnitInParts>,
    fault: Option<Fault>,
}

impl Model for BodyFeed {
    ghost use Rattle.dw_feed.specs.BodyFeed.{BodyFeed as TheFeed};
    ghost use Rattle.dw_feed.specs.BodyFeedView.{feed_of, IsBodyFeed};
    ghost use Rattle.std.specs.Coded.{codes};
    ghost use Rattle.dw_feed.specs.BodyView.{partial_unit_code};

    ghost Value = { TheFeed };

    ghost coded = { Prim.hlevel (codes, partial_unit_code) };

    ghost view = { λ a. feed_of a.coming a.fault };

    ghost invariant = { λ a. IsBodyFeed (feed_of a.coming a.fault) };
}

impl BodyFeed {
    /// A feed of the unit of this header and unit_length (section 7.5.1), over the table of its entries'
    /// declarations, that took no bytes yet. It takes no memory.
    pub fn new(alloc: Global, header: Header, length: u64, table: Rc<Table>) -> BodyFeed
        requires { HasHeaderBytes header length }
        ensures { result ≡ Reading (started header length table.value) }
    {
        BodyFeed {
            coming: Some(UnitInParts::new(alloc, header, length, table)),
            fault: None,
        }
    }

    /// Takes bytes of the piece, and answers how many, and what they show together with those that were
    /// taken before.
    ///
    /// - `More`: the whole piece was taken, and a longer one is needed. After an empty piece nothing changed.
    /// - `Done`: the unit. The last byte that was taken is the unit's last.
    /// - `Fault`: the unit's fault, in `.debug_info`, never `Truncated`; its offset counts from the first
    ///   byte of the unit. The last byte that was taken shows it first. Every later call answers it again.
    /// - `NoMemory`: a growth was refused, and no byte was taken. It isn't answered to an empty piece, nor where a code
    ///   or null comes next and is refused with this piece, as a code at a level too deep.
    /// - `Spent`, after `Done` or `NoMemory`.
    pub fn feed(&mut self, piece: &[u8]) -> (usize, Progress<Unit>)
        ensures feeds { FeedsBody self.old piece.now result.0 result.1 self.new }
        ensures empty { piece.now ≡ [] → Rests self.old result.1 self.new }
        ensures memory { FaultFirst self.old piece.now result.1 }
        ensures room { result.0 ≤ length piece.now }
    {
        if piece.is_empty() {
            return (0, self.at_rest());
        }
        let Some(coming) = &mut self.coming else {
            return match self.fault {
                Some(fault) => (0, Progress::Fault(fault)),
                None => (0, Progress::Spent),
            };
        };
        match coming.take(piece) {
            Taken::More => (piece.len(), Progress::More),
            Taken::Whole(over) => {
                self.fault = None;
                match self.coming.take() {
                    Some(coming) => (piece.len() - over, Progress::Done(coming.finish())),
                    None => unreachable!(),
                }
            }
            Taken::Refused(over, fault) => {
                self.coming = None;
                self.fault = Some(fault);
                (piece.len() - over, Progress::Fault(fault))
            }
            Taken::NoMemory => {
                self.coming = None;
                self.fault = None;
                (0, Progress::NoMemory)
            }
        }
    }

    /// What an empty piece shows.
    fn at_rest(&mut self) -> Progress<Unit>
        ensures feeds { FeedsBody self.old [] 0 result self.new }
        ensures same { Rests self.old result self.new }
    {
        let Some(coming) = &self.coming else {
            return match self.fault {
                Some(fault) => Progress::Fault(fault),
                None => Progress::Spent,
            };
        };
        let fault = coming.cut_off();
        if is_cut(fault.reason) {
            return Progress::More;
        }
        self.coming = None;
        self.fault = Some(fault);
        Progress::Fault(fault)
    }

    /// The end of the input: the fault of a unit of which bytes are missing (`Truncated`), or the fault that was
    /// answered before. Before the first piece it may also be that the unit has no room for a root (`PastUnit`), which
    /// the first piece, an empty one too, would show. None where the unit was answered, or where a growth was refused.
    pub fn end(self) -> Option<Fault>
        ensures { EndsBody self result }
    {
        match &self.coming {
            Some(coming) => Some(coming.cut_off()),
            None => self.fault,
        }
    }

    /// How many bytes of a number or of a length field are kept: at most sixteen, and none once an answer
    /// was not `More`.
    pub fn pending(&self) -> usize
        ensures { result ≡ (held self.now).pending }
    {
        match &self.coming {
            Some(coming) => coming.pending(),
            None => 0,
        }
    }

    /// What it holds, in constant time and without memory: nothing once an answer was not `More`. The entries,
    /// the bytes of texts and blocks, and the nulls of the padding are each no more than the bytes that were taken
    /// of the pieces; at most 4,096 entries are nested, and an entry has at most 1,024 values.
    ///
    /// What came before the place where the next field begins is counted as the entries and values that it spells, and
    /// what is there of that field as its own: as bytes of a number, or of a text or block that isn't whole.
    pub fn held(&self) -> Held
        ensures exact { held_of result ≡ held self.now }
        ensures within { HeldWithin (taken_by self.now) (held_of result) }
        ensures padding { length (padding_of self.now) ≤ taken_by self.now }
        ensures place { IsBodyFeed self.now }
    {
        match &self.coming {
            Some(coming) => coming.held(),
            None => Held {
                pending: 0,
                nested: 0,
                entries: 0,
                values: 0,
                pool: 0,
            },
        }
    }
}
