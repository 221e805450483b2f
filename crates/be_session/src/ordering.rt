//! Calls that read parts of a live query's answer, or refresh the query from what was written.
ghost use Rattle.std.specs.Prelude.{◌≡◌, ◌≤◌, ℕ, [], IfErr, IfOk, Ok, OnErr, OnOk, Some};
ghost use Rattle.be_session.specs.Imports.{cursor_bytes, from_number, index_kind, name_in, page};
ghost use Rattle.be_session.specs.Imports.{page_with, pinned_number, scan, volume_pinned, HasRead};
ghost use Rattle.be_session.specs.Imports.{IsAnyOf, IsLiveOf, IsPinnedTo, Learns, LocksAtMostOnce};
ghost use Rattle.be_session.specs.Imports.{NoSuchIndex};
ghost use Rattle.be_session.specs.Meaning.{IsNoName};
ghost use Rattle.be_session.specs.Ordering.{AreUnread, IsNoPage, IsPageRead};
ghost use Rattle.be_session.specs.Prepared.{ReturnsRefresh, StaysUnrefreshed};
ghost use Rattle.be_session.specs.Sitting.{IsUnanswered, IsUnread};
ghost use Rattle.be_session.specs.declared.faults.Fault.{Fault as AnyFault};
ghost use Rattle.be_session.specs.declared.faults.Fault.TheVariants.{Refused};

use crate::meanings::name;
use crate::{Cursor, Fault, Session};
use arrayvec::ArrayVec;
use be_store::{HeldName, Kind, Live, Name, Order, Refusal, Updates};

/// An order as other languages name it: the checked name of an index, whether the order is
/// ascending or exactly the reverse, and the maximum number of nodes to return.
#[derive(Clone, Copy)]
pub struct HeldOrder<'a> {
    pub by: &'a HeldName,
    pub descending: bool,
    pub most: usize,
}

/// Returns the name that is held. Returns `NoSuchIndex` if the bytes aren't a name, because then no
/// index can have it.
fn index_name(held: &HeldName) -> Result<Name, Fault>
    ensures ok { IfOk result (λ name. name ≡ name_in held.now) }
    ensures err { IfErr result (λ e. (e ≡ Refused NoSuchIndex)
        × ((why : AnyFault) × IsNoName (name_in held.now) why)) }
{
    let length = held.length.min(64) as usize;
    match name(&held.bytes[..length]) {
        Ok(name) => Ok(name),
        Err(_) => Err(Fault::Refused(Refusal::NoSuchIndex)),
    }
}

impl Session {
    /// Finds a page of an answer after a key. An error leaves the key unchanged and the list empty.
    fn page_after(
        &mut self,
        live: &mut Live,
        order: Order<'_>,
        key: &mut Option<ArrayVec<u8, 264>>,
        nodes: &mut Vec<u64>,
    ) -> Result<bool, Fault>
        requires pinned { (n : ℕ) × IsPinnedTo self.old.knows n }
        ensures store { (self.new.store ≡ self.old.store) × (self.new.holds ≡ self.old.holds) }
        ensures read { HasRead self.old.knows self.new.knows }
        ensures same { live.new ≡ live.old }
        ensures page { IfOk result (λ more. page (volume_pinned self.old.knows) live.old.query
            order.entry.by.now order.entry.descending (cursor_bytes key.old) order.entry.most
            ≡ Ok (page_with nodes.new.items (cursor_bytes key.new) more)) }
        ensures err { IfErr result (IsUnanswered (page (volume_pinned self.old.knows)
            live.old.query order.entry.by.now order.entry.descending (cursor_bytes key.old)
            order.entry.most)) }
        ensures kept { OnErr result (nodes.new.items ≡ []) }
    {
        let more = match live.ordered(self.share.store(), &mut self.pass, order, key, nodes) {
            Ok(more) => more,
            Err(refusal) => {
                nodes.clear();
                return Err(Fault::Refused(refusal));
            }
        };
        Ok(more)
    }

    /// Finds a page of an answer in the order of an index of this kind, after a cursor of that
    /// kind. An error leaves the cursor unchanged and the list empty.
    fn page_by(
        &mut self,
        live: &mut Live,
        kind: Kind,
        order: Order<'_>,
        cursor: &mut Cursor,
        nodes: &mut Vec<u64>,
    ) -> Result<bool, Fault>
        requires pinned { (n : ℕ) × IsPinnedTo self.old.knows n }
        requires wanted { 1 ≤ order.most }
        requires kind { index_kind (volume_pinned self.old.knows) order.by.now ≡ Some kind }
        requires empty { nodes.old.items ≡ [] }
        ensures store { (self.new.store ≡ self.old.store) × (self.new.holds ≡ self.old.holds) }
        ensures read { HasRead self.old.knows self.new.knows }
        ensures same { live.new ≡ live.old }
        ensures page { IfOk result (IsPageRead (volume_pinned self.old.knows) live.old.query
            order.entry.by.now order.entry.descending order.entry.most cursor.old cursor.new
            nodes.new.items) }
        ensures err { IfErr result (IsNoPage (volume_pinned self.old.knows) live.old.query
            order.entry.by.now order.entry.descending order.entry.most cursor.old) }
        ensures kept { OnErr result ((cursor.new ≡ cursor.old) × (nodes.new.items ≡ [])) }
    {
        let mut position = cursor.position(kind)?;
        let more = self.page_after(live, order, &mut position, nodes)?;
        cursor.move_to(kind, &position, nodes.len());
        Ok(more)
    }

    /// Replaces the contents of a list with one page of a live query's answer in the order of an
    /// index. Moves the cursor to the last node of the page, and returns whether more pages follow.
    ///
    /// Errors are reported in this order: `NotPinned`; `NoRoom` if no node is wanted;
    /// `NoSuchIndex`; `BadCursor`; the query's errors. `BadCursor` means that the kind of the
    /// cursor isn't that of the index, or that its key doesn't have 8 to 264 bytes. An error leaves
    /// the cursor unchanged and the list empty.
    pub fn ordered(
        &mut self,
        live: &mut Live,
        order: HeldOrder<'_>,
        cursor: &mut Cursor,
        nodes: &mut Vec<u64>,
    ) -> Result<bool, Fault>
        ensures store { (self.new.store ≡ self.old.store) × (self.new.holds ≡ self.old.holds) }
        ensures read { HasRead self.old.knows self.new.knows }
        ensures same { live.new ≡ live.old }
        ensures pin { IfOk result (λ more. (n : ℕ) × IsPinnedTo self.old.knows n) }
        ensures page { IfOk result (IsPageRead (volume_pinned self.old.knows) live.old.query
            (name_in order.entry.by.now) order.entry.descending order.entry.most cursor.old
            cursor.new nodes.new.items) }
        ensures err { IfErr result (λ e. IsUnread (pinned_number self.old.knows.phase)
            (IsNoPage (volume_pinned self.old.knows) live.old.query (name_in order.entry.by.now)
            order.entry.descending order.entry.most cursor.old e) e) }
        ensures kept { OnErr result ((cursor.new ≡ cursor.old) × (nodes.new.items ≡ [])) }
    {
        nodes.clear();
        let Some(_) = self.pass.pinned() else {
            return Err(Fault::NotPinned);
        };
        if order.most == 0 {
            return Err(Fault::NoRoom);
        }
        let by = index_name(order.by)?;
        let Some(kind) = self.share.store().index_kind(&mut self.pass, &by) else {
            return Err(Fault::Refused(Refusal::NoSuchIndex));
        };
        let wanted = Order {
            by: &by,
            descending: order.descending,
            most: order.most,
        };
        self.page_by(live, kind, wanted, cursor, nodes)
    }

    /// Replaces the contents of a list with up to `most` nodes of a live query's answer in
    /// ascending order, starting at the number `first`. Returns `NotPinned`, `NoRoom` if no node is
    /// wanted, or an error of the query. After an error, the list is empty.
    pub fn first(
        &mut self,
        live: &mut Live,
        first: u64,
        most: usize,
        nodes: &mut Vec<u64>,
    ) -> Result<(), Fault>
        ensures store { (self.new.store ≡ self.old.store) × (self.new.holds ≡ self.old.holds) }
        ensures read { HasRead self.old.knows self.new.knows }
        ensures same { live.new ≡ live.old }
        ensures pin { OnOk result ((n : ℕ) × IsPinnedTo self.old.knows n) }
        ensures wanted { OnOk result (1 ≤ most) }
        ensures nodes { OnOk result (from_number (volume_pinned self.old.knows) live.old.query first
            most ≡ Ok nodes.new.items) }
        ensures err { IfErr result (λ e. IsUnread (pinned_number self.old.knows.phase)
            (AreUnread (from_number (volume_pinned self.old.knows) live.old.query first most) most
            e) e) }
        ensures kept { OnErr result (nodes.new.items ≡ []) }
    {
        nodes.clear();
        let Some(_) = self.pass.pinned() else {
            return Err(Fault::NotPinned);
        };
        if most == 0 {
            return Err(Fault::NoRoom);
        }
        match live.first(self.share.store(), &mut self.pass, first, most, nodes) {
            Ok(()) => Ok(()),
            Err(refusal) => {
                nodes.clear();
                Err(Fault::Refused(refusal))
            }
        }
    }

    /// Replaces the contents of a list with arbitrary nodes of a live query's answer, without
    /// duplicates: `most` nodes, or all if the answer has fewer. Returns `NotPinned`, `NoRoom` if
    /// no node is wanted, or an error of the query. After an error, the list is empty.
    pub fn any(&mut self, live: &mut Live, most: usize, nodes: &mut Vec<u64>) -> Result<(), Fault>
        ensures store { (self.new.store ≡ self.old.store) × (self.new.holds ≡ self.old.holds) }
        ensures read { HasRead self.old.knows self.new.knows }
        ensures same { live.new ≡ live.old }
        ensures pin { OnOk result ((n : ℕ) × IsPinnedTo self.old.knows n) }
        ensures wanted { OnOk result (1 ≤ most) }
        ensures nodes { OnOk result (IsAnyOf (scan (volume_pinned self.old.knows) live.old.query)
            most nodes.new.items) }
        ensures err { IfErr result (λ e. IsUnread (pinned_number self.old.knows.phase)
            (AreUnread (scan (volume_pinned self.old.knows) live.old.query) most e) e) }
        ensures kept { OnErr result (nodes.new.items ≡ []) }
    {
        nodes.clear();
        let Some(_) = self.pass.pinned() else {
            return Err(Fault::NotPinned);
        };
        if most == 0 {
            return Err(Fault::NoRoom);
        }
        match live.any(self.share.store(), &mut self.pass, most, nodes) {
            Ok(()) => Ok(()),
            Err(refusal) => {
                nodes.clear();
                Err(Fault::Refused(refusal))
            }
        }
    }

    /// Returns what `refresh` returns, but computes it from what was written since the last
    /// refresh, as the live query's `refresh_changed` does. Makes either no move, or a lock and an
    /// unlock. An error leaves the live query unchanged.
    ///
    /// As with `join`, one requirement is not checked: the last refresh must have been in this
    /// store.
    pub fn refresh_changed(&mut self, live: &mut Live) -> Result<Updates, Fault>
        requires own { IsLiveOf self.old.store live.old }
        ensures store { (self.new.store ≡ self.old.store) × (self.new.holds ≡ self.old.holds) }
        ensures learns { Learns self.old.knows self.new.knows }
        ensures moves { LocksAtMostOnce self.old.knows self.new.knows }
        ensures volume { volume_pinned self.new.knows ≡ volume_pinned self.old.knows }
        ensures own { IsLiveOf self.old.store live.new }
        ensures ok { IfOk result (ReturnsRefresh self.old.knows live.old live.new) }
        ensures err { IfErr result (StaysUnrefreshed self.old.knows live.old live.new) }
    {
        let Some(_) = self.pass.pinned() else {
            return Err(Fault::NotPinned);
        };
        Ok(live.refresh_changed(self.share.store(), &mut self.pass)?)
    }
}
