//! Closes a store, and returns the text of its journal.
ghost use Rattle.std.specs.Prelude.{◌≡◌, ◌⊎◌, ◌≤◌, IfErr, IfOk, length, string_bytes};
ghost use Rattle.bestore_c.specs.Imports.{text_seen, Learns, LocksAndUnlocks};
ghost use Rattle.bestore_c.specs.Finishing.{IsEnd, IsNoEnd};

use crate::asking::put_text;
use crate::refusing::refuse;
use be_session::{Fault, Session, Unfinished};

/// Returns the journal's text if the session is the last one of its store and there is room for the
/// whole text. Otherwise returns the code of a call that left the store unchanged. Writes the
/// length of the text, or the number that the error carries.
pub(crate) fn last_text(session: &mut Session, room: usize, count: &mut u64) -> Result<String, u32>
    ensures store { (session.new.store ≡ session.old.store)
        × (session.new.holds ≡ session.old.holds) }
    ensures seen { IfOk result (λ text. Learns session.old.knows session.new.knows
        × LocksAndUnlocks session.old.knows session.new.knows
        × (string_bytes text ≡ text_seen session.new.knows)) }
    ensures room { IfOk result (λ text. length (string_bytes text) ≤ room) }
    ensures err { IfErr result (λ code. IsNoEnd session.old session.new room count.new code) }
{
    if let Err(fault) = session.may_finish() {
        return Err(refuse(fault, count));
    }
    match session.journal_text() {
        Ok(text) => {
            *count = text.len() as u64;
            if room < text.len() { Err(0) } else { Ok(text) }
        }
        Err(fault) => Err(refuse(fault, count)),
    }
}

/// Closes the session's store, and writes the text of its journal, which the caller passes in, and
/// the length of the text. If it turns out that the store can't be closed, closes only the session
/// and returns `InUse`.
pub(crate) fn end(session: Session, text: &str, bytes: &mut [u8], count: &mut u64) -> u32
    requires text { text.now ≡ text_seen session.knows }
    requires room { length text.now ≤ length bytes.old }
    ensures end { IsEnd session.store.limits session.knows bytes.old bytes.new count.new result }
    ensures kept { (result ≡ 0) ⊎ (bytes.new ≡ bytes.old) }
{
    let seen = session.seen();
    match session.finish() {
        Ok(journal) => {
            if journal.len() != seen {
                return refuse(Fault::InUse, count);
            }
            put_text(text, bytes, count);
            0
        }
        Err(Unfinished::Kept(session, _)) => {
            drop(session.close());
            refuse(Fault::InUse, count)
        }
        Err(Unfinished::PassLost) => refuse(Fault::InUse, count),
    }
}
