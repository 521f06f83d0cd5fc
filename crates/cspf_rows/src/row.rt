//! Rows: what a record says, or the first reason why it is refused.

ghost use Rattle.std.specs.Prelude.{◌≡◌};
ghost use Rattle.csv.specs.Records.{fields_of};

use crate::field::{address, expect_count, flag, hops, mask, number, priority, small_number, text};
use crate::row_error::RowError;
use cspf_addr::Addr;
use cspf_model::{Link, LinkError, Request, RequestError, fields_of_links_and_requests};
use csv::ByteRecord;

/// What a record of a stream says: a change, the end of a batch, or a request.
#[derive(Clone, Copy, Debug, PartialEq, Eq)]
pub enum Row {
    /// A change that puts the link into the database.
    Put(Link),
    /// A change that removes the link with this key.
    Remove {
        /// The router at which the link begins.
        from: Addr,
        /// The address of the link's interface at that router.
        local: Addr,
    },
    /// A change that says whether a router has transit.
    Node {
        /// The Router ID.
        router: Addr,
        /// Whether routes may pass through the router.
        transit: bool,
    },
    /// The end of a batch, which consists of the changes since the last `end` row.
    End {
        /// The version of the database that the batch makes.
        number: u32,
        /// How many changes the batch has.
        count: u32,
    },
    /// A request.
    Ask(Request),
}

impl Row {
    ghost use Rattle.cspf_rows.specs.Rows.{row_of, put_row_of, drop_row_of, node_row_of, end_row_of, ask_row_of};

    /// The row that the fields of a record say, or the error of the first check that fails. The
    /// checks come in this order: the kind, the number of fields, each field, and whether the two
    /// endpoints differ.
    #[tactic(auto, unfolding(crate::specs::Rows::row_of))]
    pub fn read(fields: &ByteRecord) -> Result<Row, RowError>
        ensures { result ≡ row_of (fields_of fields.now) }
    {
        let kind = text(fields, 1);
        if kind == b"put".as_slice() {
            expect_count(fields, 15)?;
            Row::put(fields)
        } else if kind == b"drop".as_slice() {
            expect_count(fields, 3)?;
            Row::remove(fields)
        } else if kind == b"node".as_slice() {
            expect_count(fields, 3)?;
            Row::node(fields)
        } else if kind == b"end".as_slice() {
            expect_count(fields, 3)?;
            Row::end(fields)
        } else if kind == b"ask".as_slice() {
            expect_count(fields, 10)?;
            Row::ask(fields)
        } else {
            Err(RowError::Kind)
        }
    }

    /// The row of 15 fields that puts a link.
    #[tactic(auto, using(crate::proofs::AttributeLemmas::refused_ends), unfolding(crate::specs::Rows::put_row_of))]
    fn put(fields: &ByteRecord) -> Result<Row, RowError>
        ensures { result ≡ put_row_of (fields_of fields.now) }
    {
        let from = address(fields, 2)?;
        let local = address(fields, 3)?;
        let to = address(fields, 4)?;
        let remote = address(fields, 5)?;
        let metric = small_number(fields, 6)?;
        let group = mask(fields, 7)?;
        let free = [
            number(fields, 8)?,
            number(fields, 9)?,
            number(fields, 10)?,
            number(fields, 11)?,
            number(fields, 12)?,
            number(fields, 13)?,
            number(fields, 14)?,
            number(fields, 15)?,
        ];
        fields_of_links_and_requests();
        match Link::new(from, local, to, remote, metric, group, free) {
            Ok(link) => Ok(Row::Put(link)),
            Err(LinkError::SelfLink) => Err(RowError::SelfLink),
        }
    }

    /// The row of 3 fields that removes a link.
    #[tactic(auto, unfolding(crate::specs::Rows::drop_row_of))]
    fn remove(fields: &ByteRecord) -> Result<Row, RowError>
        ensures { result ≡ drop_row_of (fields_of fields.now) }
    {
        let from = address(fields, 2)?;
        let local = address(fields, 3)?;
        Ok(Row::Remove { from, local })
    }

    /// The row of 3 fields that says whether a router has transit.
    #[tactic(auto, unfolding(crate::specs::Rows::node_row_of))]
    fn node(fields: &ByteRecord) -> Result<Row, RowError>
        ensures { result ≡ node_row_of (fields_of fields.now) }
    {
        let router = address(fields, 2)?;
        let transit = flag(fields, 3)?;
        Ok(Row::Node { router, transit })
    }

    /// The row of 3 fields that ends a batch.
    #[tactic(auto, unfolding(crate::specs::Rows::end_row_of))]
    fn end(fields: &ByteRecord) -> Result<Row, RowError>
        ensures { result ≡ end_row_of (fields_of fields.now) }
    {
        let number = small_number(fields, 2)?;
        let count = small_number(fields, 3)?;
        Ok(Row::End { number, count })
    }

    /// The row of 10 fields that asks for a route. The first field isn't checked, so that another
    /// format can use these fields after a word of its own.
    #[tactic(auto, using(crate::proofs::AttributeLemmas::refused_ends), unfolding(crate::specs::Rows::ask_row_of))]
    pub fn ask(fields: &ByteRecord) -> Result<Row, RowError>
        ensures { result ≡ ask_row_of (fields_of fields.now) }
    {
        fields_of_links_and_requests();
        let asked = Request::new(
            number(fields, 2)?,
            address(fields, 3)?,
            address(fields, 4)?,
            priority(fields, 5)?,
            number(fields, 6)?,
            mask(fields, 7)?,
            mask(fields, 8)?,
            mask(fields, 9)?,
            hops(fields, 10)?,
        );
        match asked {
            Ok(request) => Ok(Row::Ask(request)),
            Err(RequestError::Priority) => Err(RowError::Priority),
            Err(RequestError::SameEnds) => Err(RowError::SameEnds),
        }
    }
}
