//! Names that are checked once and kept, and the limit on the cells that a call can return.
ghost use Rattle.std.specs.Prelude.{◌≡◌, ◌*◌, ◌^◌, ◌<◌, ◌≤◌, true, false, IfErr, IfOk, Ok, IsUtf8};
ghost use Rattle.be_session.specs.Imports.{name_from, name_in};
ghost use Rattle.be_session.specs.Meaning.{IsNoName};

use crate::Fault;
use crate::meanings::name;
use be_store::HeldName;

/// One call returns at most 2^32 cells.
const MOST_CELLS: usize = 1 << 32;

/// Checks that these bytes are a valid name, and returns them as a name that can be kept.
pub fn held_name(bytes: &[u8]) -> Result<HeldName, Fault>
    ensures ok { IfOk result (λ held. (name_in held ≡ bytes.now) × IsUtf8 bytes.now
        × (name_from bytes.now ≡ Ok bytes.now)) }
    ensures err { IfErr result (λ e. IsNoName bytes.now e) }
{
    Ok(HeldName::new(&name(bytes)?))
}

/// Returns whether one call can return this many cells.
pub(crate) fn are_few(nodes: usize, names: usize) -> bool
    ensures few { result ≡ true → nodes * names ≤ 2 ^ 32 }
    ensures many { result ≡ false → 2 ^ 32 < nodes * names }
{
    match nodes.checked_mul(names) {
        Some(count) => count <= MOST_CELLS,
        None => false,
    }
}
