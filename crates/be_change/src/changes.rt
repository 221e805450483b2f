//! A change, which is the snapshot on which it is based and the operations that it collects.
ghost use Rattle.std.specs.Prelude.{◌≡◌, ◌⊎◌, ◌≤◌, ◌<◌, ◌+◌, ◌^◌, [], ◌∷◌, ◌++◌, true, IfOk, IfErr};
ghost use Rattle.std.specs.Prelude.{OnOk, false, length, unwrap_or};
ghost use Rattle.be_volume.specs.declared.ops.Op.TheVariants as ops;
ghost use Rattle.be_change.specs.Imports.{attribute, index_kind, kind_of, Node, State};
ghost use Rattle.be_change.specs.Changing.{After, Reads, outcomes, with_op};
ghost use Rattle.be_change.specs.Collecting.{HasNoRoom, IsOfRightKind, IsOfWrongKind};
ghost use Rattle.be_change.specs.Left.{index_kind_left};

use crate::CollectError;
use crate::overlay::{attribute_left, index_left, listed_kind};
use be_value::{Kind, Name, Value};
use be_volume::Op;
use std::alloc::Global;
use std::marker::Model;

/// The maximum number of operations in a change, which is written as one transaction.
pub const MOST_OPERATIONS: usize = 64;

/// What a program has read and will write: the number of a snapshot, and up to 64 operations to be
/// written on that snapshot. Collecting an operation writes nothing.
///
/// Contracts see a `Changing`. What the operations leave of the snapshot's volume is stated for
/// every volume that the change may read (`Reads`) and that accepts the operations (`After`).
#[derive(Drop)]
pub struct Change {
    number: u64,
    by: u64,
    first: u64,
    /// How many nodes the operations create.
    made: u64,
    /// The snapshot's indices.
    indices: Vec<(Name, Kind)>,
    ops: Vec<Op>,
    checks_kinds: bool,
    pins: bool,
}

impl Model for Change {
    ghost use Rattle.std.specs.Prelude.{◌≡◌, ◌≤◌, ◌<◌, ◌+◌, ◌^◌, count_by, length};
    ghost use Rattle.be_change.specs.Changing.{Changing};
    ghost use Rattle.be_change.specs.Left.{is_new};

    ghost Value = { Changing };

    ghost view = { λ c. record {
      number = c.number;
      by = c.by;
      first = c.first;
      indices = c.indices.items;
      ops = c.ops.items;
      checks = c.checks_kinds;
      pins = c.pins;
    } };

    ghost invariant = { λ c. (c.made ≡ count_by is_new c.ops.items)
        × (length c.ops.items ≤ 64) × (c.first + 64 < 2 ^ 64) };
}

impl Change {
    /// Creates a change that has collected nothing. `by` is the number of its pass, and `first` is
    /// that of its first new node.
    pub(crate) fn new(
        alloc: Global,
        number: u64,
        by: u64,
        first: u64,
        indices: Vec<(Name, Kind)>,
        checks_kinds: bool,
        pins: bool,
    ) -> Change
        requires { first + 64 < 2 ^ 64 }
        ensures { result ≡ record {
          number = number;
          by = by;
          first = first;
          indices = indices.items;
          ops = [];
          checks = checks_kinds;
          pins = pins;
        } }
    {
        Change {
            number,
            by,
            first,
            made: 0,
            indices,
            ops: Vec::new(alloc),
            checks_kinds,
            pins,
        }
    }

    /// Returns the snapshot's number.
    pub fn number(&self) -> u64
        ensures { result ≡ self.now.number }
    {
        self.number
    }

    /// Returns the number of the pass that began the change.
    pub fn by(&self) -> u64
        ensures { result ≡ self.now.by }
    {
        self.by
    }

    /// Returns the number of the first new node.
    pub fn first_node(&self) -> u64
        ensures { result ≡ self.now.first }
    {
        self.first
    }

    /// Lets sets take values of any kind from now on.
    pub fn take_any_kind(&mut self)
        ensures { self.new ≡ record self.old { checks = false } }
    {
        self.checks_kinds = false;
    }

    /// Returns whether the change itself has pinned its pass.
    pub(crate) fn pins(&self) -> bool
        ensures { result ≡ self.now.pins }
    {
        self.pins
    }

    /// Returns the collected operations, in order.
    pub fn operations(&self) -> &[Op]
        ensures list { result.now ≡ self.now.ops }
        ensures few { length result.now ≤ 64 }
    {
        self.ops.as_slice()
    }

    /// Creates a node, and returns the number that it will have. Returns `TooMany` or `OutOfMemory`
    /// on failure.
    pub fn new_node(&mut self) -> Result<u64, CollectError>
        ensures ok { OnOk result (self.new ≡ with_op self.old ops.New) }
        ensures given { IfOk result (λ node. outcomes self.new.first self.new.ops
            ≡ outcomes self.old.first self.old.ops ++ Node node ∷ []) }
        ensures next { IfOk result (λ node. (base : State) → Reads self.old base
            → After self.old base (λ s. node ≡ s.next)) }
        ensures err { IfErr result (λ e. (self.new ≡ self.old) × HasNoRoom self.old e) }
    {
        let node = self.first + self.made;
        self.collect(Op::New)?;
        Ok(node)
    }

    /// Removes a node and all its attributes. Returns `TooMany` or `OutOfMemory` on failure.
    pub fn remove_node(&mut self, node: u64) -> Result<(), CollectError>
        ensures ok { OnOk result (self.new ≡ with_op self.old (ops.Drop node)) }
        ensures err { IfErr result (λ e. (self.new ≡ self.old) × HasNoRoom self.old e) }
    {
        self.collect(Op::Drop(node))
    }

    /// Sets an attribute of a node, replacing any existing value.
    ///
    /// Returns `WrongKind` if the change checks kinds and the index of this name, as the collected
    /// operations leave it, takes values of another kind. A name without an index takes any kind.
    /// The other errors are `TooMany` and `OutOfMemory`.
    pub fn set(&mut self, node: u64, name: Name, value: Value) -> Result<(), CollectError>
        ensures ok { OnOk result (self.new ≡ with_op self.old (ops.Set node name value)) }
        ensures kind { OnOk result (self.old.checks ≡ true
            → IsOfRightKind self.old name (kind_of value)) }
        ensures err { IfErr result (λ e. (self.new ≡ self.old)
            × ((HasNoRoom self.old e × (self.old.checks ≡ true
            → IsOfRightKind self.old name (kind_of value)))
            ⊎ IsOfWrongKind self.old name (kind_of value) e)) }
    {
        self.check_kind(&name, value.kind())?;
        self.collect(Op::Set(node, name, value))
    }

    /// Removes an attribute of a node. Returns `TooMany` or `OutOfMemory` on failure.
    pub fn unset(&mut self, node: u64, name: Name) -> Result<(), CollectError>
        ensures ok { OnOk result (self.new ≡ with_op self.old (ops.Unset node name)) }
        ensures err { IfErr result (λ e. (self.new ≡ self.old) × HasNoRoom self.old e) }
    {
        self.collect(Op::Unset(node, name))
    }

    /// Creates an index, which is empty at first. Returns `TooMany` or `OutOfMemory` on failure.
    pub fn make_index(&mut self, name: Name, kind: Kind) -> Result<(), CollectError>
        ensures ok { OnOk result (self.new ≡ with_op self.old (ops.MkIndex name kind)) }
        ensures err { IfErr result (λ e. (self.new ≡ self.old) × HasNoRoom self.old e) }
    {
        self.collect(Op::MkIndex(name, kind))
    }

    /// Removes an index. Returns `TooMany` or `OutOfMemory` on failure.
    pub fn remove_index(&mut self, name: Name) -> Result<(), CollectError>
        ensures ok { OnOk result (self.new ≡ with_op self.old (ops.RmIndex name)) }
        ensures err { IfErr result (λ e. (self.new ≡ self.old) × HasNoRoom self.old e) }
    {
        self.collect(Op::RmIndex(name))
    }

    /// Returns the kind of the index of this name, as the collected operations leave it. Reads no
    /// page, because the change knows the snapshot's indices.
    pub fn index_kind(&self, name: &Name) -> Option<Kind>
        ensures left { (base : State) → Reads self.now base
            → result ≡ index_kind_left base self.now.ops name.now }
        ensures accepted { (base : State) → Reads self.now base
            → After self.now base (λ s. result ≡ index_kind s name.now) }
    {
        match index_left(self.ops.as_slice(), name) {
            Some(kind) => kind,
            None => listed_kind(self.indices.as_slice(), name),
        }
    }

    /// Returns what the collected operations leave of an attribute, or `None` if none of them
    /// affects it.
    pub(crate) fn left(&self, node: u64, name: &Name) -> Option<Option<Value>>
        ensures { (base : State) → Reads self.now base → After self.now base
            (λ s. attribute s node name.now ≡ unwrap_or result (attribute base node name.now)) }
    {
        attribute_left(self.ops.as_slice(), self.first + self.made, node, name)
    }

    /// Returns `WrongKind` if the change checks kinds and the index of this name takes values of
    /// another kind.
    fn check_kind(&self, name: &Name, kind: Kind) -> Result<(), CollectError>
        ensures right { OnOk result (self.now.checks ≡ true
            → IsOfRightKind self.now name.now kind) }
        ensures wrong { IfErr result (IsOfWrongKind self.now name.now kind) }
    {
        if !self.checks_kinds {
            return Ok(());
        }
        match self.index_kind(name) {
            Some(index) if index != kind => Err(CollectError::WrongKind(index, kind)),
            _ => Ok(()),
        }
    }

    /// Adds an operation if there is room for one more.
    fn collect(&mut self, op: Op) -> Result<(), CollectError>
        ensures ok { OnOk result (self.new ≡ with_op self.old op) }
        ensures err { IfErr result (λ e. (self.new ≡ self.old) × HasNoRoom self.old e) }
    {
        if self.ops.len() >= MOST_OPERATIONS {
            return Err(CollectError::TooMany);
        }
        let made = self.made + u64::from(matches!(op, Op::New));
        self.ops.push(op)?;
        self.made = made;
        Ok(())
    }
}
