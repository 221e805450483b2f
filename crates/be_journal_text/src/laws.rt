//! Laws that the definitions satisfy. Each is a function that does nothing; its contract is the
//! law.
ghost use Rattle.std.specs.Prelude.{◌≡◌, ℕ, List, Ok};
ghost use Rattle.be_volume.specs.declared.ops.Op.{Op as AnyOp};
ghost use Rattle.be_journal.specs.Text.{lines_from, op_text};
ghost use Rattle.be_journal.specs.declared.entries.Entry.{Entry as AnyEntry};
ghost use Rattle.be_script_language.specs.Request.{asked, write};
ghost use Rattle.be_journal_text.specs.Finding.{TextReports};
ghost use Rattle.be_journal_text.specs.History.{CanBeJournal, CanBeOp};

/// A printed operation, read as a script's line, requests that operation.
pub fn printed_op_asks_for_it()
    ensures { (op : AnyOp) → CanBeOp op → asked (op_text op) ≡ write (Ok op) }
{}

/// No two journals have the same text.
pub fn texts_differ()
    ensures { (entries others : List AnyEntry) → CanBeJournal entries → CanBeJournal others
        → lines_from 1 entries ≡ lines_from 1 others → entries ≡ others }
{}

/// No text encodes two journals.
pub fn text_reports_one()
    ensures { (text : List ℕ) (entries others : List AnyEntry) → CanBeJournal entries
        → CanBeJournal others → TextReports text entries → TextReports text others →
        entries ≡ others }
{}
