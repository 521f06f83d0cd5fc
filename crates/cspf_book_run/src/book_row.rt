//! The rows of a book: the rows of a database, rows that place, release and restore, and rows that
//! only look.

ghost use Rattle.std.specs.Prelude.{◌≡◌, ◌≤◌, IfOk, Some, Ok};
ghost use Rattle.csv.specs.Records.{fields_of};
ghost use Rattle.cspf_model.specs.Fields.{HasRequestFields, request_fields};
ghost use Rattle.cspf_rows.specs.FieldValues.{address_at, field, number_at};
ghost use Rattle.cspf_rows.specs.declared.row.Row.TheVariants as row;
ghost use Rattle.cspf_book_run.specs.BookRows.{held_as_read, held_request_of, held_route_of, left_key_of, path_of_steps};

use crate::book_row_error::BookRowError;
use crate::route_field::read_steps;
use cspf_addr::Addr;
use cspf_book::{Path, Placement};
use cspf_model::{Request, fields_of_links_and_requests};
use cspf_rows::{Row, RowError};
use csv::ByteRecord;
use std::alloc::{AllocError, Global};

/// What a record asks of a book.
#[derive(Debug, Drop)]
pub enum BookRow {
    /// A row of the base: a change, an end row, or a request that is answered but not placed.
    Base(Row),
    /// A request to place.
    Place {
        /// The request, with the setup priority 7.
        request: Request,
        /// The holding priority, from 0 (the most important) to 7.
        hold: u8,
    },
    /// The placement with this id is to be released.
    Release {
        /// The id of the placement's request.
        id: u64,
    },
    /// A placement to restore. Its route leads from the head-end to the tail-end. The setup priority
    /// of its request is 7.
    Held {
        /// The placement with the route that it already has.
        placement: Placement,
    },
    /// A request that is answered as a `place` row would be. It isn't placed.
    Offer {
        /// The request, with the setup priority 7.
        request: Request,
        /// The holding priority, from 0 (the most important) to 7.
        hold: u8,
    },
    /// The placement with this id is to be shown.
    Show {
        /// The id of the placement's request.
        id: u64,
    },
    /// The bandwidth that is left on the link with this key is to be shown.
    Left {
        /// The router at which the link begins.
        from: Addr,
        /// The address of the link's interface at that router.
        local: Addr,
    },
}

impl BookRow {
    ghost use Rattle.cspf_book_run.specs.BookRows.{book_row_of, other_row_of, place_row_of, release_row_of, held_row_of, offer_row_of, show_row_of, left_row_of};

    /// Reads a record as a row of a book, or returns the first reason to refuse the record. The
    /// kind of the row is checked first, and then the fields are checked as in `Row::read`. After
    /// the first word, `place`, `offer` and `held` rows have the fields of an `ask` row. The last
    /// field of a `held` row is the route, which is checked last. Only this route takes memory.
    #[tactic(auto, unfolding(crate::specs::BookRows::book_row_of))]
    pub fn read(
        alloc: Global,
        fields: &ByteRecord,
    ) -> Result<Result<BookRow, BookRowError>, AllocError>
        ensures { IfOk result (λ read. read ≡ book_row_of (fields_of fields.now)) }
    {
        if text(fields, 1) == b"held".as_slice() {
            return BookRow::held(alloc, fields);
        }
        match BookRow::other(fields) {
            Ok(row) => Ok(Ok(row)),
            Err(error) => Ok(Err(BookRowError::Row(error))),
        }
    }

    /// Reads a record that is no `held` row.
    fn other(fields: &ByteRecord) -> Result<BookRow, RowError>
        ensures { result ≡ other_row_of (fields_of fields.now) }
    {
        let kind = text(fields, 1);
        if kind == b"place".as_slice() {
            BookRow::place(fields)
        } else if kind == b"release".as_slice() {
            BookRow::release(fields)
        } else if kind == b"offer".as_slice() {
            BookRow::offer(fields)
        } else if kind == b"show".as_slice() {
            BookRow::show(fields)
        } else if kind == b"left".as_slice() {
            BookRow::left(fields)
        } else {
            Row::read(fields).map(BookRow::Base)
        }
    }

    /// Reads a `place` row, which has 10 fields.
    fn place(fields: &ByteRecord) -> Result<BookRow, RowError>
        ensures { result ≡ place_row_of (fields_of fields.now) }
    {
        let (request, hold) = held_request(fields, 10)?;
        Ok(BookRow::Place { request, hold })
    }

    /// Reads a `release` row, which has 2 fields.
    fn release(fields: &ByteRecord) -> Result<BookRow, RowError>
        ensures { result ≡ release_row_of (fields_of fields.now) }
    {
        if fields.len() != 2 {
            return Err(RowError::Fields);
        }
        let id = number(fields, 2)?;
        Ok(BookRow::Release { id })
    }

    /// Reads a `held` row, which has 11 fields.
    fn held(alloc: Global, fields: &ByteRecord) -> Result<Result<BookRow, BookRowError>, AllocError>
        ensures { IfOk result (λ read. read ≡ held_row_of (fields_of fields.now)) }
    {
        if fields.len() != 11 {
            return Ok(Err(BookRowError::Row(RowError::Fields)));
        }
        match Row::ask(fields) {
            Ok(Row::Ask(request)) => BookRow::held_as(alloc, fields, &request),
            // `Row::ask` returns only requests.
            Ok(_) => Ok(Err(BookRowError::Row(RowError::Kind))),
            Err(error) => Ok(Err(BookRowError::Row(error))),
        }
    }

    /// Reads a `held` row whose fields were read as those of this request.
    fn held_as(
        alloc: Global,
        fields: &ByteRecord,
        request: &Request,
    ) -> Result<Result<BookRow, BookRowError>, AllocError>
        ensures { IfOk result (λ read.
            read ≡ held_as_read (fields_of fields.now) (Ok (row.Ask request.now))) }
    {
        // Law: a request is determined by its fields.
        fields_of_links_and_requests();
        match held_route(alloc, fields, request)? {
            Ok(route) => Ok(Ok(BookRow::Held {
                placement: Placement {
                    request: at_lowest_setup(request),
                    hold: request.setup,
                    route,
                },
            })),
            Err(error) => Ok(Err(error)),
        }
    }

    /// Reads an `offer` row, which has 10 fields.
    fn offer(fields: &ByteRecord) -> Result<BookRow, RowError>
        ensures { result ≡ offer_row_of (fields_of fields.now) }
    {
        let (request, hold) = held_request(fields, 10)?;
        Ok(BookRow::Offer { request, hold })
    }

    /// Reads a `show` row, which has 2 fields.
    fn show(fields: &ByteRecord) -> Result<BookRow, RowError>
        ensures { result ≡ show_row_of (fields_of fields.now) }
    {
        if fields.len() != 2 {
            return Err(RowError::Fields);
        }
        let id = number(fields, 2)?;
        Ok(BookRow::Show { id })
    }

    /// Reads a `left` row, which has 3 fields.
    fn left(fields: &ByteRecord) -> Result<BookRow, RowError>
        ensures { result ≡ left_row_of (fields_of fields.now) }
    {
        if fields.len() != 3 {
            return Err(RowError::Fields);
        }
        let (from, local) = key(fields)?;
        Ok(BookRow::Left { from, local })
    }
}

/// The path of a `held` row's placement. `fields` are the row's fields, and `request` is its
/// request. The path begins at the request's head-end. The route is refused if its field can't be
/// read, or if the route doesn't lead to the tail-end.
fn held_route(
    alloc: Global,
    fields: &ByteRecord,
    request: &Request,
) -> Result<Result<Path, BookRowError>, AllocError>
    ensures { IfOk result (λ read.
        read ≡ held_route_of request.now (field (fields_of fields.now) 11)) }
{
    match read_steps(alloc, text(fields, 11))? {
        Some(steps) => path_of_steps(alloc, steps.as_slice(), request),
        None => Ok(Err(BookRowError::Route)),
    }
}

/// The path of a request's placement along these steps, which begin at the head-end. They have to
/// lead to the tail-end.
fn path_of_steps(
    alloc: Global,
    steps: &[(Addr, Addr)],
    request: &Request,
) -> Result<Result<Path, BookRowError>, AllocError>
    ensures { IfOk result (λ read. read ≡ path_of_steps request.now (Some steps.now)) }
{
    let path = Path::along(alloc, request.from, steps)?;
    if path.leads(request.from, request.to) {
        Ok(Ok(path))
    } else {
        Ok(Err(BookRowError::Route))
    }
}

/// The request and the holding priority of a record that has `count` fields. After the first field,
/// the record has the fields of an `ask` row.
fn held_request(fields: &ByteRecord, count: usize) -> Result<(Request, u8), RowError>
    ensures { result ≡ held_request_of count (fields_of fields.now) }
{
    if fields.len() != count {
        return Err(RowError::Fields);
    }
    // Law: a request is determined by its fields.
    fields_of_links_and_requests();
    match Row::ask(fields)? {
        Row::Ask(request) => Ok((at_lowest_setup(&request), request.setup)),
        // `Row::ask` returns only requests.
        _ => Err(RowError::Kind),
    }
}

/// The key of a link in the fields 2 and 3: a router, and the address of its interface.
fn key(fields: &ByteRecord) -> Result<(Addr, Addr), RowError>
    ensures { result ≡ left_key_of (fields_of fields.now) }
{
    let from = address(fields, 2)?;
    let local = address(fields, 3)?;
    Ok((from, local))
}

/// The number that the field with this number spells.
#[tactic(auto, unfolding(cspf_rows::specs::FieldValues::number_at))]
fn number(fields: &ByteRecord, place: usize) -> Result<u64, RowError>
    requires { 1 ≤ place }
    ensures { result ≡ number_at (fields_of fields.now) place }
{
    cspf_addr::number(text(fields, place)).ok_or(RowError::Number { field: place })
}

/// The address that the field with this number spells.
#[tactic(auto, unfolding(cspf_rows::specs::FieldValues::address_at))]
fn address(fields: &ByteRecord, place: usize) -> Result<Addr, RowError>
    requires { 1 ≤ place }
    ensures { result ≡ address_at (fields_of fields.now) place }
{
    let address = Addr::parse(text(fields, place)).ok();
    address.ok_or(RowError::Address { field: place })
}

/// The bytes of the field with this number, counted from 1. If the record has no such field, the
/// result is empty.
fn text(fields: &ByteRecord, place: usize) -> &[u8]
    requires { 1 ≤ place }
    ensures { result.now ≡ field (fields_of fields.now) place }
{
    fields.get(place - 1).unwrap_or(&[])
}

/// The same request with the setup priority 7.
fn at_lowest_setup(q: &Request) -> Request
    ensures { HasRequestFields result (request_fields q.now.id q.now.from q.now.to 7 q.now.bandwidth
        q.now.exclude_any q.now.include_any q.now.include_all q.now.hops) }
{
    Request {
        id: q.id,
        from: q.from,
        to: q.to,
        setup: 7,
        bandwidth: q.bandwidth,
        exclude_any: q.exclude_any,
        include_any: q.include_any,
        include_all: q.include_all,
        hops: q.hops,
    }
}
