//! A version of a volume that is being built.
ghost use Rattle.std.specs.Prelude.{◌≡◌, [], ◌≤◌, ◌^◌, ℕ, IfErr, IfOk, IsTrue, OnErr};
ghost use Rattle.std.specs.Prelude.{OnOk, false, true};
ghost use Rattle.be_paged_building.specs.Building.{AreBelow, Builds, IsIndexFor};
ghost use Rattle.be_paged_building.specs.Building.{IsNoRoom, IsPlaceFor, IsTooLarge};
ghost use Rattle.be_paged_building.specs.Building.{MayBeIndex, MayBeNode, MayHave};
ghost use Rattle.be_paged_building.specs.Building.{MayIndex, MayTake, Refuses, pages_held};
ghost use Rattle.be_paged_building.specs.Errors.{AttributeError, AttributeErrorAfter, FinishError};
ghost use Rattle.be_paged_building.specs.Errors.{HeldErrorAmong, IndexError, IndexErrorAfter};
ghost use Rattle.be_paged_building.specs.Errors.{NodeError};
ghost use Rattle.be_paged_building.specs.Given.{with_held, with_index, with_next, with_node};
ghost use Rattle.be_paged_reading.specs.Page.{reach};
ghost use Rattle.be_paged_reading.specs.Version.{IsVersion};
ghost use Rattle.be_pages.specs.Refusal.{IsFullOf};
ghost use Rattle.be_pages.specs.declared.room.PageState.{PageState as AnyPageState};
ghost use Rattle.be_tree.specs.Counting.{HasInHand};
ghost use Rattle.be_value.specs.declared.refusals.Refusal.TheVariants.{OutOfMemory};
ghost use Rattle.be_volume.specs.Volume.{empty};

use crate::given::{add_attribute, add_index, add_node, blank, named, set_next};
use crate::keys::{Keys, add_key};
use arrayvec::ArrayVec;
use be_paged_reading::{Entry, Version, catalog_key, payload_of, search, set_root, store_version};
use be_pages::Room;
use be_tree::TreeBuilder;
use be_value::{Kind, Name, Refusal, Value};
use be_volume::{MAX_ATTRIBUTES, MAX_INDICES, Volume};
use std::alloc::Global;
use std::cmp::Ordering;
use std::snapshot::Snapshot;

/// A version of a volume that is being built.
#[derive(Drop)]
pub struct VolumeBuilder {
    alloc: Global,
    page: u64,
    node: u64,
    attributes: usize,
    name: Option<Name>,
    catalog: TreeBuilder,
    entries: ArrayVec<Entry, 32>,
    keys: Vec<Keys>,
    /// The volume that has been given. Only contracts see it.
    volume: Snapshot<Volume>,
}

impl VolumeBuilder {
    /// Begins with the empty volume, and takes the version page.
    pub fn new<R: Room>(alloc: Global, room: &mut R) -> Result<VolumeBuilder, Refusal>
        requires open { IsTrue (R.is_open (R.kept room.old)) }
        ensures ok { IfOk result (λ builder. Builds (R.page_state room.new) (R.words room.new)
            builder builder.volume.value) }
        ensures volume { IfOk result (λ builder. builder.volume.value ≡ empty) }
        ensures hand { IfOk result (λ builder. HasInHand (R.page_state room.old) []
            → HasInHand (R.page_state room.new) (pages_held (R.words room.new) builder)) }
        ensures kept { R.kept room.new ≡ R.kept room.old }
        ensures refused { IfErr result (IsFullOf (R.full room.new)) }
        ensures same { OnErr result (R.page_state room.new ≡ R.page_state room.old) }
    {
        let page = room.take()?;
        Ok(VolumeBuilder {
            alloc,
            page,
            node: 0,
            attributes: 0,
            name: None,
            catalog: TreeBuilder::new(alloc),
            entries: ArrayVec::new(),
            keys: Vec::new(alloc),
            volume: blank(alloc),
        })
    }

    /// Returns `true` if the name is above those of the indices.
    fn is_above(&self, name: &Name) -> bool
        ensures above { result ≡ true → AreBelow self.now.entries.items name.now }
        ensures other { result ≡ false → AreBelow self.now.entries.items name.now → ⊥ }
    {
        match search(&self.entries, name) {
            Ok(_) => false,
            Err(at) => at == self.entries.len(),
        }
    }

    /// Checks that an index may come next.
    fn check_index(&self, name: &Name, kind: Kind) -> Result<(), Refusal>
        ensures ok { OnOk result (MayIndex self.now.node self.now.entries.items name.now kind) }
        ensures why { IfErr result (IndexErrorAfter self.now.node self.now.entries.items name.now
            kind) }
    {
        if self.node != 0 {
            return Err(Refusal::NoNode);
        }
        if !kind.indexable() {
            return Err(Refusal::NotIndexable);
        }
        if self.entries.len() >= MAX_INDICES {
            return Err(Refusal::TooManyIndices);
        }
        if !self.is_above(name) {
            return Err(Refusal::IndexExists);
        }
        Ok(())
    }

    /// Adds an index without pairs. Indices come before the first node, in ascending order of their
    /// names: fails with `NoNode` after a node, with `NotIndexable` if the kind can't be indexed,
    /// with `TooManyIndices` after 32 indices, and with `IndexExists` if the name isn't above the
    /// last one, in this order. The volume is then unchanged.
    pub fn index(&mut self, name: &Name, kind: Kind) -> Result<(), Refusal>
        ensures ok { OnOk result ((page_state : ℕ → AnyPageState) (words : ℕ → ℕ → ℕ)
            → Builds page_state words self.old self.old.volume.value
            → MayBeIndex self.old.volume.value name.now kind
            × Builds page_state words self.new self.new.volume.value) }
        ensures volume { OnOk result (self.new.volume.value
            ≡ with_index self.old.volume.value name.now kind) }
        ensures refused { (page_state : ℕ → AnyPageState) (words : ℕ → ℕ → ℕ)
            → Builds page_state words self.old self.old.volume.value
            → Refuses self.old self.new (IndexError self.old.volume.value name.now kind)
            (λ e. e ≡ OutOfMemory) result page_state page_state }
        ensures held { OnOk result ((words : ℕ → ℕ → ℕ)
            → pages_held words self.new ≡ pages_held words self.old) }
        ensures same { OnErr result (self.new.volume.value ≡ self.old.volume.value) }
    {
        self.check_index(name, kind)?;
        self.keys.push(Keys::new(self.alloc))?;
        self.entries.push(Entry::new(name, kind));
        add_index(&mut self.volume, name, kind);
        Ok(())
    }

    /// Adds a node without attributes. Fails with `NoNode` if its number isn't above the last one,
    /// or is 2^63 or more; the volume is then unchanged. After `Full` or `OutOfMemory` the builder
    /// can't be used again.
    pub fn node<R: Room>(&mut self, room: &mut R, node: u64) -> Result<(), Refusal>
        requires builds { Builds (R.page_state room.old) (R.words room.old) self.old
            self.old.volume.value }
        requires open { IsTrue (R.is_open (R.kept room.old)) }
        ensures may { OnOk result (MayBeNode self.old.volume.value node) }
        ensures ok { OnOk result (Builds (R.page_state room.new) (R.words room.new) self.new
            self.new.volume.value) }
        ensures volume { OnOk result (self.new.volume.value
            ≡ with_node self.old.volume.value node) }
        ensures hand { OnOk result (HasInHand (R.page_state room.old)
            (pages_held (R.words room.old) self.old)
            → HasInHand (R.page_state room.new) (pages_held (R.words room.new) self.new)) }
        ensures kept { R.kept room.new ≡ R.kept room.old }
        ensures refused { Refuses self.old self.new (NodeError self.old.volume.value node)
            (IsNoRoom (R.full room.new) (IsTooLarge (with_node self.old.volume.value node)
            (pages_held (R.words room.old) self.old) (R.page_state room.old)
            (R.page_state room.new))) result room.old room.new }
        ensures same { OnErr result (self.new.volume.value ≡ self.old.volume.value) }
    {
        if node <= self.node || node >= 1 << 63 {
            return Err(Refusal::NoNode);
        }
        self.catalog.push(room, &node.to_be_bytes(), &[])?;
        self.node = node;
        self.attributes = 0;
        self.name = None;
        add_node(&mut self.volume, node);
        Ok(())
    }

    /// Returns the position of the index that holds a value of this name.
    fn index_for(&self, name: &Name, value: &Value) -> Result<usize, Refusal>
        ensures found { IfOk result (λ at. IsIndexFor self.now.entries.items name.now value.now
            at) }
        ensures why { IfErr result (HeldErrorAmong self.now.entries.items name.now value.now) }
    {
        let Ok(at) = search(&self.entries, name) else {
            return Err(Refusal::NoSuchIndex);
        };
        if self.entries[at].kind() != value.kind() {
            return Err(Refusal::NotIndexable);
        }
        Ok(at)
    }

    /// Returns the position of the index for a value that is held.
    fn place_for(&self, name: &Name, value: &Value, held: bool) -> Result<Option<usize>, Refusal>
        ensures found { IfOk result (IsPlaceFor self.now.entries.items name.now value.now held) }
        ensures held { OnErr result (held ≡ true) }
        ensures why { IfErr result (HeldErrorAmong self.now.entries.items name.now value.now) }
    {
        if held {
            Ok(Some(self.index_for(name, value)?))
        } else {
            Ok(None)
        }
    }

    /// Checks that an attribute may come next.
    fn check_attribute(&self, name: &Name) -> Result<(), Refusal>
        ensures ok { OnOk result (MayTake self.now.node self.now.attributes self.now.name
            name.now) }
        ensures why { IfErr result (AttributeErrorAfter self.now.node self.now.attributes
            self.now.name name.now) }
    {
        if self.node == 0 {
            return Err(Refusal::NoNode);
        }
        if self.attributes >= MAX_ATTRIBUTES {
            return Err(Refusal::TooManyAttrs);
        }
        match &self.name {
            Some(last) if last.cmp(name) != Ordering::Less => Err(Refusal::NoAttr),
            _ => Ok(()),
        }
    }

    /// Adds an attribute of the last node; if it is held, the index of its name has it. Fails with
    /// `NoNode` before the first node, with `TooManyAttrs` after 64 attributes, with `NoAttr` if
    /// the name isn't above the last one, and for one that is held with `NoSuchIndex` if there is
    /// no such index, and with `NotIndexable` if it is of another kind. The volume is then
    /// unchanged.
    /// After `Full` or `OutOfMemory` the builder can't be used again.
    pub fn attribute<R: Room>(
        &mut self,
        room: &mut R,
        name: &Name,
        value: &Value,
        held: bool,
    ) -> Result<(), Refusal>
        requires builds { Builds (R.page_state room.old) (R.words room.old) self.old
            self.old.volume.value }
        requires open { IsTrue (R.is_open (R.kept room.old)) }
        ensures may { OnOk result (MayHave self.old.volume.value self.old.node name.now value.now
            held) }
        ensures ok { OnOk result (Builds (R.page_state room.new) (R.words room.new) self.new
            self.new.volume.value) }
        ensures volume { OnOk result (self.new.volume.value
            ≡ with_held self.old.volume.value self.old.node name.now value.now held) }
        ensures hand { OnOk result (HasInHand (R.page_state room.old)
            (pages_held (R.words room.old) self.old)
            → HasInHand (R.page_state room.new) (pages_held (R.words room.new) self.new)) }
        ensures kept { R.kept room.new ≡ R.kept room.old }
        ensures refused { Refuses self.old self.new
            (AttributeError self.old.volume.value self.old.node name.now value.now held)
            (IsNoRoom (R.full room.new) (IsTooLarge
            (with_held self.old.volume.value self.old.node name.now value.now held)
            (pages_held (R.words room.old) self.old) (R.page_state room.old)
            (R.page_state room.new))) result room.old room.new }
        ensures same { OnErr result (self.new.volume.value ≡ self.old.volume.value) }
    {
        named(name);
        self.check_attribute(name)?;
        let at = self.place_for(name, value, held)?;
        let key = catalog_key(self.node, name);
        self.catalog.push(room, &key, &payload_of(value))?;
        add_key(&mut self.keys, at, value, self.node)?;
        self.attributes += 1;
        self.name = Some(name.copy());
        add_attribute(&mut self.volume, self.node, name, value, held);
        Ok(())
    }

    /// Completes the version, and returns its page and, for contracts, the volume. Fails with
    /// `NoNode` if the next node's number isn't above that of each node, or is above 2^63.
    pub fn finish<R: Room>(
        self,
        room: &mut R,
        next: u64,
    ) -> Result<(u64, Snapshot<Volume>), Refusal>
        requires builds { Builds (R.page_state room.old) (R.words room.old) self
            self.volume.value }
        requires open { IsTrue (R.is_open (R.kept room.old)) }
        ensures may { OnOk result ((self.volume.value.next ≤ next) × (next ≤ 2 ^ 63)) }
        ensures ok { IfOk result (λ r. IsVersion (R.page_state room.new) (R.words room.new) r.0
            r.1.value) }
        ensures volume { IfOk result (λ r. r.1.value ≡ with_next self.volume.value next) }
        ensures page { IfOk result (λ r. r.0 ≡ self.page) }
        ensures hand { IfOk result (λ r. HasInHand (R.page_state room.old)
            (pages_held (R.words room.old) self)
            → HasInHand (R.page_state room.new) (reach (R.words room.new) r.0)) }
        ensures kept { R.kept room.new ≡ R.kept room.old }
        ensures refused { Refuses self self (FinishError self.volume.value next)
            (IsNoRoom (R.full room.new) (IsTooLarge (with_next self.volume.value next)
            (pages_held (R.words room.old) self) (R.page_state room.old)
            (R.page_state room.new))) result room.old room.new }
    {
        let VolumeBuilder {
            alloc,
            page,
            node,
            attributes: _,
            name: _,
            catalog,
            mut entries,
            keys,
            mut volume,
        } = self;
        if next <= node || next > 1 << 63 {
            return Err(Refusal::NoNode);
        }
        let root = catalog.finish(room)?;
        let mut at = 0;
        for list in keys {
            let tree = list.build(alloc, room)?;
            set_root(&mut entries, at, tree);
            at += 1;
        }
        let version = Version {
            next,
            catalog: root,
            entries,
        };
        store_version(room, page, &version);
        set_next(&mut volume, next);
        Ok((page, volume))
    }
}
