//! The keys that changes of the base touch. A key is touched if the changes move the far end of its
//! link, or of the link whose reverse has this key, or change the mark of its router. The far end
//! is the neighbor and the remote address; a mark says that a router carries no transit. Where
//! groups matter, a key is also touched if the changes put its link into other groups. A route that
//! the base admits is lost only if one of its links has a touched key.

ghost use Rattle.std.specs.Prelude.{◌≡◌, length};

use crate::after::{find_after, has_moved, has_other_groups};
use crate::changed::Changed;
use crate::path::Passed;
use crate::router_bits::{four_bits, has_quarters, slot_of};
use cspf_addr::Addr;
use cspf_db::Table;
use cspf_model::Change;
use std::alloc::{AllocError, Global};

/// The touched keys. Other keys may seem touched, too.
#[derive(Drop)]
pub(crate) struct Touched {
    /// Whether a link's key is also touched if only the link's groups change. A request without
    /// affinities isn't affected by groups.
    groups: bool,
    /// 65,536 slots. The slot of each touched key is set.
    slots: Vec<bool>,
    /// The bits of the routers of the touched keys.
    bits: u128,
    /// The bits that all touched keys have in common. The key of a link has the four bits of the
    /// routers at both ends of the link. The mark of a router has the four bits of this router.
    common: u128,
    ghost many: { length slots.items ≡ 65536 },
}

impl Touched {
    ghost use Rattle.std.specs.Prelude.{ℕ, false, IfOk};
    ghost use Rattle.cspf_model.specs.Changes.{after_changes, key_changed};
    ghost use Rattle.cspf_book.specs.RouterBits.{IsAmong};
    ghost use Rattle.cspf_book.specs.Touched.{IsCommon, IsTouched, KeepsTouched, IsLinkEntered, IsEntered, AreTouched, IsUntouched};

    /// The keys that these changes of the base touch.
    pub(crate) fn new(
        alloc: Global,
        base: &Table,
        changed: &Changed,
        changes: &[Change],
        groups: bool,
    ) -> Result<Touched, AllocError>
        requires { changed.now ≡ changes.now }
        ensures touched { IfOk result (λ touched. AreTouched base.now changed.now touched) }
        ensures groups { IfOk result (λ touched. touched.groups ≡ groups) }
    {
        let mut touched = Touched {
            groups,
            slots: vec![in alloc; false; 65_536]?,
            bits: 0,
            common: u128::MAX,
        };
        for change in changes {
            touched.enter(base, changed, change);
        }
        Ok(touched)
    }

    /// Enters the key of a change.
    fn enter(&mut self, base: &Table, changes: &Changed, change: &Change)
        ensures kept { KeepsTouched self.old self.new }
        ensures entered { IsEntered base.now (after_changes base.now changes.now) self.new
            (key_changed change.now).0 (key_changed change.now).1 }
    {
        match change.key() {
            (from, Some(local)) => self.enter_link(base, changes, from, local),
            (router, None) => self.add(router, None, router),
        }
    }

    /// Adds the key of the base's link with this key if the changes affect this link, and the key
    /// of its reverse if they move its far end.
    fn enter_link(&mut self, base: &Table, changes: &Changed, from: Addr, local: Addr)
        ensures kept { KeepsTouched self.old self.new }
        ensures entered { IsLinkEntered base.now (after_changes base.now changes.now) self.new
            (from, local) }
    {
        if let Some(link) = base.find(from, local) {
            let after = find_after(base, changes, from, local);
            if has_moved(&link, &after) {
                self.add(from, Some(local), link.to);
                self.add(link.to, Some(link.remote), from);
            } else if self.groups && has_other_groups(&link, &after) {
                self.add(from, Some(local), link.to);
            }
        }
    }

    /// Adds a touched key. `far` is the router at the far end of the key's link. For the key of a
    /// mark it is the router itself.
    fn add(&mut self, router: Addr, local: Option<Addr>, far: Addr)
        ensures kept { KeepsTouched self.old self.new }
        ensures touched { IsTouched self.new (router, local) far }
    {
        let slot = slot_of(router, local);
        self.slots[slot] = true;
        self.bits |= four_bits(router);
        self.common &= four_bits(router) | four_bits(far);
    }

    /// Whether the key may be touched.
    fn has(&self, router: Addr, local: Option<Addr>) -> bool
        ensures { result ≡ false → (far : ℕ) → ¬ IsTouched self.now (router, local) far }
    {
        let slot = slot_of(router, local);
        self.slots[slot]
    }

    /// Whether the link's key or the mark of its router may be touched.
    pub(crate) fn may_touch(&self, link: &Passed) -> bool
        ensures { result ≡ false → IsUntouched self.now link.now }
    {
        self.has(link.from, Some(link.local)) || self.has(link.from, None)
    }

    /// Whether a touched key may be the key of a link on a route with these bits, or of the mark of
    /// a router on it. Such a key has the four bits of its router, and of the router at the far end
    /// of its link, all in `bits`.
    pub(crate) fn may_affect(&self, bits: u128) -> bool
        ensures { result ≡ false → (router far : ℕ) → IsAmong bits router → IsAmong bits far
            → IsAmong self.now.bits router → ¬ IsCommon self.now.common router far }
    {
        self.common & bits == self.common && has_quarters(self.bits & bits)
    }
}
