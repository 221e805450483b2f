//! Laws about the bytes of entries, for the crates above this one.
//!
//! Each is a function that does nothing; its contract is the law.
ghost use Rattle.std.specs.Prelude.{◌≡◌, ◌≤◌, ◌++◌, ℕ, List, length};
ghost use Rattle.be_entry_bytes.specs.Decoding.{entry_at, found};
ghost use Rattle.be_entry_bytes.specs.Encoding.{entry_bytes, most_bytes, CanBeEntry};
ghost use Rattle.be_volume.specs.declared.ops.Done.{Done as AnyDone};
ghost use Rattle.be_volume.specs.declared.ops.Op.{Op as AnyOp};

/// A law: an entry that was written is read back unchanged, whatever follows it.
pub fn entry_is_read()
    ensures { (by : ℕ) (ops : List AnyOp) (dones : List AnyDone) (rest : List ℕ)
        → CanBeEntry by ops dones →
        entry_at (entry_bytes by ops dones ++ rest) ≡ found by ops dones rest }
{}

/// A law: an entry has at most 18 bytes plus 356 per operation.
pub fn entry_is_short()
    ensures { (by : ℕ) (ops : List AnyOp) (dones : List AnyDone) → CanBeEntry by ops dones →
        length (entry_bytes by ops dones) ≤ most_bytes (length ops) }
{}
