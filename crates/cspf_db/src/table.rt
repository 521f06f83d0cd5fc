//! The table that stores a traffic engineering database, with the lists that the search for routes
//! reads. Each module of `table/` contains one of these lists, or one step of absorbing a batch.

ghost use Rattle.std.specs.Prelude.{◌≡◌, ◌<◌, ◌≤◌, ◌↔◌, ℕ, All, Contains, length, map, slice_index, slice_index_or, IfOk, OnOk, IfErr, OnErr, IfSome, IfNone, IsTrue};
ghost use Rattle.std.specs.Vec.{vec_capacity};
ghost use Rattle.std.specs.List.Sorted.{IsStrictlyIncreasing};
ghost use Rattle.std.specs.FinSet as set;
ghost use Rattle.cspf_model.specs.declared.link.Link.{Link as Linked};
ghost use Rattle.cspf_model.specs.Database.{AreLinksOf, AreAtTheirKeys, HasReverse, HasTransit, IsRouterOf, link_at, router_count, HaveOwnKeys};
ghost use Rattle.cspf_columns.specs.Index.{links_of, router_list, links_from, links_from_index, IsReverseAt};
ghost use Rattle.cspf_model.specs.Changes.{no_links, after_changes, Fits};
ghost use Rattle.cspf_model.specs.Refusals.{IsRefusal};
ghost use Rattle.cspf_db.specs.Owners.{AreOwners};
ghost use Rattle.cspf_db.specs.Plans.{IsPlanOf};
ghost use Rattle.cspf_model.specs.Targets.{Owns};
ghost use Rattle.cspf_db.specs.Tables.AddressRanges.{IsRangeOf};
ghost use Rattle.cspf_model.specs.declared.limits.TheConstants.{MOST_LINKS, MOST_MARKS};

mod address_range;
mod changes;
mod fit;
mod marks;
mod plan;
mod shape;
mod transits;

use crate::limits::ROOM_FOR_MARKS;
use address_range::{AddressRange, range_of};
use cspf_addr::{Addr, Prefix};
use cspf_columns::overwriting::write_over;
use cspf_columns::reverses::reverse_index;
use cspf_columns::routers::search;
use cspf_columns::row_changes::change_columns;
use cspf_columns::rows::{any_within, index_of, rows_from};
use cspf_columns::{Columns, NO_LINK, Scratch, with_room};
use cspf_model::{Batch, Link, MOST_ROUTERS, Refusal};
use marks::{change_marks, is_marked};
pub use plan::Plan;
pub use shape::shapes_tell_routers;
use std::alloc::{AllocError, Global};
use std::marker::Model;
use transits::list_transits;

/// A traffic engineering database of at most 16,384 links, 1,024 routers, and 1,024 marks. A mark
/// says that a router has no transit. Only `new` and `try_clone` allocate memory.
#[derive(Debug, Drop)]
pub struct Table {
    columns: Columns,
    marks: Vec<Addr>,
    transits: Vec<bool>,
    scratch: Scratch,
}

impl Model for Table {
    ghost use Rattle.cspf_model.specs.Database.{Database};
    ghost use Rattle.cspf_model.specs.DatabaseCode.{database_code};

    ghost Value = { Database };

    ghost coded = { database_code };

    ghost use Rattle.cspf_model.specs.Lemmas.LinkRows.{marked_database};
    ghost use Rattle.cspf_db.specs.Tables.Parts.{IsTable};

    ghost view = { λ a. marked_database a.columns.rows.items a.marks.items };

    ghost invariant = { IsTable };
}

impl Table {
    /// An empty table with capacity for 16,384 links, 1,024 routers and 1,024 marks. A mark says
    /// that a router has no transit.
    pub fn new(alloc: Global) -> Result<Table, AllocError>
        ensures { IfOk result (λ table. table ≡ no_links) }
    {
        Ok(Table {
            columns: Columns::new(alloc)?,
            marks: Vec::with_capacity(alloc, ROOM_FOR_MARKS)?,
            transits: Vec::with_capacity(alloc, MOST_ROUTERS)?,
            scratch: Scratch::new(alloc)?,
        })
    }

    /// A table with the same database. It can absorb further batches, which don't change this table.
    /// The copy allocates as much memory as `new`.
    pub fn try_clone(&self, alloc: Global) -> Result<Table, AllocError>
        ensures { IfOk result (λ copy. copy ≡ self.now) }
    {
        Ok(Table {
            columns: self.columns.try_clone(alloc)?,
            marks: with_room(alloc, &self.marks, ROOM_FOR_MARKS)?,
            transits: with_room(alloc, &self.transits, MOST_ROUTERS)?,
            scratch: Scratch::new(alloc)?,
        })
    }

    /// The links, each once, in order of the router at which they begin. Links that begin at the
    /// same router are in order of their interface address at this router. The links begin and end
    /// at no more than 1,024 routers.
    pub fn links(&self) -> &[Link]
        ensures listed { AreLinksOf self.now result.now }
        ensures most { length result.now ≤ MOST_LINKS }
        ensures once { HaveOwnKeys result.now }
        ensures keyed { AreAtTheirKeys self.now }
        ensures few { router_count self.now ≤ MOST_ROUTERS }
        ensures sorted { result.now ≡ links_of self.now }
    {
        self.columns.rows.as_slice()
    }

    /// The routers, each once, in increasing order.
    pub fn routers(&self) -> &[Addr]
        ensures all { result.now ≡ router_list self.now }
        ensures known { (router : ℕ) → Contains result.now router ↔ IsRouterOf self.now router }
        ensures rising { IsStrictlyIncreasing result.now }
        ensures few { length result.now ≤ MOST_ROUTERS }
    {
        self.columns.routers.as_slice()
    }

    /// For each link of `links`, the index in `routers` of the router at which the link ends.
    pub fn ends(&self) -> &[u16]
        ensures within { All (λ end. end < length (router_list self.now)) result.now }
        ensures each { map (λ end. slice_index (router_list self.now) end) result.now
            ≡ map (λ l. l.to) (links_of self.now) }
    {
        self.columns.ends.as_slice()
    }

    /// The index of the router in `routers`, or `None` if `routers` doesn't have the router.
    pub fn place_of(&self, router: Addr) -> Option<usize>
        ensures bound { IfSome result (λ at. at < length (router_list self.now)) }
        ensures some { IfSome result (λ at. slice_index (router_list self.now) at ≡ router) }
        ensures none { IfNone result (¬ IsRouterOf self.now router) }
    {
        search(&self.columns.routers, router).ok()
    }

    /// The links that begin at the router, in order of their interface address at this router.
    pub fn out(&self, router: Addr) -> &[Link]
        ensures { result.now ≡ links_from self.now router }
    {
        rows_from(&self.columns.rows, router)
    }

    /// The links that begin at the router with the index `at` in `routers`.
    pub fn out_at(&self, at: usize) -> &[Link]
        requires { at < length (router_list self.now) }
        ensures { result.now ≡ links_from_index self.now at }
    {
        let span = &self.columns.spans[at];
        &self.columns.rows[usize::from(span.first)..usize::from(span.end)]
    }

    /// For each link of `out_at`, the index in `routers` of the router at which the link ends.
    pub fn ends_at(&self, at: usize) -> &[u16]
        requires { at < length (router_list self.now) }
        ensures within { All (λ end. end < length (router_list self.now)) result.now }
        ensures each { map (λ end. slice_index (router_list self.now) end) result.now
            ≡ map (λ l. l.to) (links_from_index self.now at) }
    {
        let span = &self.columns.spans[at];
        &self.columns.ends[usize::from(span.first)..usize::from(span.end)]
    }

    /// For each link of `out_at`, the index of its reverse in `links`, or `NO_LINK` if the link has
    /// no reverse. The comment of `has_reverse` explains reverses.
    pub fn reverses_at(&self, at: usize) -> &[u16]
        requires { at < length (router_list self.now) }
        ensures many { length result.now ≡ length (links_from_index self.now at) }
        ensures each { (nth : ℕ) (d : Linked) → nth < length (links_from_index self.now at)
            → IsReverseAt self.now (slice_index_or (links_from_index self.now at) nth d)
            (slice_index_or result.now nth 0) }
    {
        let span = &self.columns.spans[at];
        &self.columns.reverses[usize::from(span.first)..usize::from(span.end)]
    }

    /// The link with the key (`from`, `local`), or `None` if no link has this key.
    pub fn find(&self, from: Addr, local: Addr) -> Option<Link>
        ensures { result ≡ link_at self.now (from, local) }
    {
        let at = index_of(&self.columns.rows, from, local)?;
        Some(self.columns.rows[at])
    }

    /// Whether the table has the reverse of the link. The reverse joins the same two interfaces in
    /// the other direction, and may have any metric, groups and bandwidths. RFC 2328 16.1, step 2b,
    /// requires less: any link back to the router is enough.
    pub fn has_reverse(&self, link: &Link) -> bool
        ensures { IsTrue result ↔ HasReverse self.now link.now }
    {
        reverse_index(&self.columns.rows, link) != NO_LINK
    }

    /// Whether a link begins or ends at the router.
    pub fn has_router(&self, router: Addr) -> bool
        ensures { IsTrue result ↔ IsRouterOf self.now router }
    {
        search(&self.columns.routers, router).is_ok()
    }

    /// The Router IDs that are marked as without transit (RFC 6987), each once, in increasing
    /// order. A marked Router ID needn't be a router of the table.
    pub fn marks(&self) -> &[Addr]
        ensures all { self.now.marks ≡ set.from_list result.now }
        ensures rising { IsStrictlyIncreasing result.now }
        ensures few { length result.now ≤ MOST_MARKS }
    {
        self.marks.as_slice()
    }

    /// Whether the router has transit, that is, whether routes may pass through it (RFC 6987).
    /// Routes may begin and end at a router without transit. The router needn't be in the table.
    pub fn transit(&self, router: Addr) -> bool
        ensures { IsTrue result ↔ HasTransit self.now router }
    {
        !is_marked(&self.marks, router)
    }

    /// Whether the router with the index `at` in `routers` has transit, as `transit` explains it.
    pub fn transit_at(&self, at: usize) -> bool
        requires { at < length (router_list self.now) }
        ensures { IsTrue result ↔ HasTransit self.now (slice_index (router_list self.now) at) }
    {
        self.transits[at]
    }

    /// Whether the router owns the prefix: the router is in `routers`, and the prefix covers its
    /// Router ID or the address of one of its interfaces (RFC 3209 4.3.3.2). The interfaces are the
    /// local interfaces of the links that begin at the router. Metrics, groups and bandwidths don't
    /// matter.
    pub fn owns(&self, router: Addr, prefix: Prefix) -> bool
        ensures { IsTrue result ↔ Owns self.now prefix router }
    {
        match self.place_of(router) {
            Some(at) => self.owns_within(at, prefix, &range_of(prefix)),
            None => false,
        }
    }

    /// Whether the router with the index `at` in `routers` owns the prefix, as `owns` explains it.
    /// `range` is the range of the addresses that the prefix covers.
    fn owns_within(&self, at: usize, prefix: Prefix, range: &AddressRange) -> bool
        requires bound { at < length (router_list self.now) }
        requires range { IsRangeOf prefix range.now }
        ensures { IsTrue result
            ↔ Owns self.now prefix (slice_index (router_list self.now) at) }
    {
        if range.contains(self.columns.routers[at]) {
            return true;
        }
        let span = &self.columns.spans[at];
        if range.misses(span.lowest, span.highest) {
            return false;
        }
        any_within(self.out_at(at), prefix)
    }

    /// Lists the indexes in `routers` of all routers that own the prefix, as `owns` explains it.
    /// The indexes are in increasing order. The call reads a router's links only if the prefix
    /// covers some address from the router's lowest to its highest interface address. `owners` has
    /// capacity for all routers, so the call allocates no memory.
    pub fn list_owners(&self, owners: &mut Vec<u16>, prefix: Prefix)
        requires { MOST_ROUTERS ≤ vec_capacity owners.old }
        ensures owners { AreOwners self.now prefix owners.new.items }
        ensures room { vec_capacity owners.old ≤ vec_capacity owners.new }
    {
        let range = range_of(prefix);
        owners.clear();
        for at in 0..self.columns.routers.len() {
            if self.owns_within(at, prefix, &range) {
                owners.push_reserved(at as u16);
            }
        }
    }

    /// Checks whether the batch fits. If the batch doesn't fit, returns the first reason. The call
    /// doesn't check the batch's number.
    pub fn check(&self, batch: &Batch) -> Result<(), Refusal>
        ensures ok { OnOk result (Fits self.now batch.now) }
        ensures err { IfErr result (λ refusal. IsRefusal self.now batch.now refusal) }
        ensures unfit { OnErr result (¬ Fits self.now batch.now) }
    {
        match self.plan(batch) {
            Ok(_) => Ok(()),
            Err(refusal) => Err(refusal),
        }
    }

    /// Checks whether the batch fits. If the batch fits, returns a plan, which `absorb_planned`
    /// takes. Otherwise returns the first reason why the batch doesn't fit. The call doesn't check
    /// the batch's number.
    pub fn plan(&self, batch: &Batch) -> Result<Plan, Refusal>
        ensures ok { IfOk result (IsPlanOf self.now batch.now) }
        ensures err { IfErr result (λ refusal. IsRefusal self.now batch.now refusal) }
        ensures unfit { OnErr result (¬ Fits self.now batch.now) }
    {
        match fit::fits(&self.columns, &self.marks, batch) {
            Ok(tally) => Ok(Plan { tally }),
            Err(why) => Err(why),
        }
    }

    /// Makes all changes of the batch if it fits. A batch that doesn't fit changes nothing.
    pub fn absorb(&mut self, batch: &Batch)
        ensures fitting { Fits self.old batch.now
            → self.new ≡ after_changes self.old batch.now.changes }
        ensures unfit { (¬ Fits self.old batch.now) → self.new ≡ self.old }
    {
        let _ = self.try_absorb(batch);
    }

    /// Makes all changes of the batch if it fits. Otherwise changes nothing, and returns the first
    /// reason why the batch doesn't fit. The call doesn't check the batch's number.
    pub fn try_absorb(&mut self, batch: &Batch) -> Result<(), Refusal>
        ensures ok { OnOk result (Fits self.old batch.now) }
        ensures changed { OnOk result (self.new ≡ after_changes self.old batch.now.changes) }
        ensures err { IfErr result (λ refusal. IsRefusal self.old batch.now refusal) }
        ensures unfit { OnErr result (¬ Fits self.old batch.now) }
        ensures same { OnErr result (self.new ≡ self.old) }
    {
        match self.plan(batch) {
            Ok(plan) => {
                self.absorb_planned(batch, plan);
                Ok(())
            }
            Err(why) => Err(why),
        }
    }

    /// Makes all changes of a batch that fits. The method `plan` returned `plan` for this batch and
    /// this database. The call doesn't check again whether the batch fits, and allocates no memory.
    pub fn absorb_planned(&mut self, batch: &Batch, plan: Plan)
        requires { IsPlanOf self.old batch.now plan }
        ensures { self.new ≡ after_changes self.old batch.now.changes }
    {
        if plan.tally.alike {
            write_over(&mut self.columns, &batch.changes);
            return;
        }
        change_columns(
            &mut self.columns,
            &mut self.scratch,
            &batch.changes,
            plan.tally.added,
            plan.tally.brought,
        );
        change_marks(&mut self.marks, &batch.changes);
        list_transits(&mut self.transits, &self.columns.routers, &self.marks);
    }
}
