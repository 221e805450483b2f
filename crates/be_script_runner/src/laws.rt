//! Laws that the definitions satisfy. Each function has an empty body; its contract is the law.
ghost use Rattle.std.specs.Prelude.{◌≡◌, ◌≢◌, ◌≤◌, ◌∷◌, [], ◌++◌, ℕ, All, Bool, List, Ok, Some};
ghost use Rattle.std.specs.Prelude.{None, length};
ghost use Rattle.be_script_runner.specs.Imports.{dump, index_kind, key_at, lines_of, option_map};
ghost use Rattle.be_script_runner.specs.Imports.{page, replay, state_dump, state_ops, AnyEntry};
ghost use Rattle.be_script_runner.specs.Imports.{CanBeJournal, CanBeOp, Formula, IsLegal, IsSound};
ghost use Rattle.be_script_runner.specs.Imports.{Kind, Knowledge, Limits, Option, Page, Reply};
ghost use Rattle.be_script_runner.specs.Imports.{Request, State};
ghost use Rattle.be_script_runner.specs.Pages.{last_pair};
ghost use Rattle.be_script_runner.specs.Output.{IsOutputTo, Outputs, Session, Replies, Serves};
ghost use Rattle.be_script_runner.specs.Output.{opening};
ghost use Rattle.be_script_runner.specs.Lines.{IsServedBy, LeadTo};
ghost use Rattle.be_script_runner.specs.Order.{FollowOneOrder};
ghost use Rattle.be_script_runner.specs.Race.{IsRace};
ghost use Rattle.be_script_runner.specs.Served.{known};
ghost use Rattle.be_script_runner.specs.Store.{Store, Joins, start};
ghost use Rattle.be_script_runner.specs.Strict.{IsStrictOutput};
ghost use Rattle.be_script_runner.specs.JournalRuns.{MakesVolume, dump_output, made};

/// In a store with one pass, nobody else writes, so the store is always as its pass left it.
pub fn nobody_joins()
    ensures { (old new : Store) → old.passes ≡ 1 → old.pass ≡ 0 → Joins old new → new ≡ old }
{}

/// In a store with one pass, a line is answered from the store as it is, and leaves a store
/// with one pass. So what `run` writes depends on a single pass.
pub fn answered_alone()
    ensures { (s after : Session) (request : Request) (reply : Reply) → s.store.passes ≡ 1
        → s.store.pass ≡ 0 → Serves s request reply after →
        Replies s request reply after × (after.store.passes ≡ 1) × (after.store.pass ≡ 0) }
{}

/// A journal's script rebuilds the journal. If memory and pages suffice, running the script
/// produces the same volume and the same journal, except for the passes' numbers.
pub fn dump_makes_journal()
    ensures { (limit : ℕ) (entries : List AnyEntry) → CanBeJournal entries → IsLegal entries
        → length entries ≤ limit →
        IsOutputTo (start limit) (dump entries) (made limit entries) (dump_output 1 entries) }
{}

/// The script of the state that a journal leaves rebuilds this state. If memory and pages suffice,
/// running the script produces the journal's volume, in no more writes than the journal has.
/// be_journal_text's `dump_state` says that the operations of a loaded volume satisfy `CanBeOp`.
pub fn state_dump_makes_volume()
    ensures { (limit : ℕ) (entries : List AnyEntry) → CanBeJournal entries
        → All CanBeOp (state_ops (replay entries)) → length entries ≤ limit →
        MakesVolume limit (state_dump (replay entries)) (replay entries) (length entries) }
{}

/// The text that a strict run writes is an output of the whole script if no line is refused, and
/// otherwise of its lines up to and including the refused one.
pub fn strict_output_is_output()
    ensures whole { (store new : Store) (script out : List ℕ)
        → IsStrictOutput store script None new out → IsOutputTo store script new out }
    ensures first { (store new : Store) (script text out : List ℕ) (number : ℕ)
        → IsStrictOutput store script (Some (number, text)) new out →
        (lines : List (List ℕ)) × (rest : List (List ℕ)) × (last : Session)
        × (lines_of script ≡ lines ++ rest) × (number ≡ length lines)
        × Outputs (opening store) lines last out × (last.store ≡ new) }
{}

/// The calls of a race's passes follow one order, that of the moves in `IsRace`. So a query's
/// answer is the scan of the volume after a prefix of the journal, the reply to an accepted write
/// is what the volume gives at that write's position in the journal, and a pin sees all writes that
/// come before it.
pub fn race_follows_one_order()
    ensures { (limits : Limits) (scripts : List (List ℕ)) (out : List ℕ)
        → (race : IsRace limits scripts out) → FollowOneOrder race.journal race.passes }
{}

/// The replies to a script, line by line, are an output of the script. The output begins with the
/// store that the pass showed at first, and leaves the store that the pass shows at the end. Calls
/// led from what the pass knew at first to what it knows at the end, through what it knew after
/// each line.
pub fn served_is_output()
    ensures output { (a z : Knowledge) (script out : List ℕ) → IsServedBy a script z out
        → IsOutputTo (known a) script (known z) out }
    ensures calls { (a z : Knowledge) (script out : List ℕ) → IsServedBy a script z out
        → LeadTo a z }
{}

/// The value and number of a page's last node determine the cursor that the page leaves. So if each
/// page of a version begins after the position that the previous page printed, the pages are those
/// of be_order's `pages_are_the_whole`: together they make up the whole list, with each node once.
pub fn position_is_the_cursor()
    ensures { (s : State) (f : Formula) (by : List ℕ) (kind : Kind) (descending : Bool)
        (cursor : Option (List ℕ)) (most : ℕ) (p : Page) → IsSound s → index_kind s by ≡ Some kind
        → page s f by descending cursor most ≡ Ok p → p.nodes ≢ []
        → option_map key_at (last_pair s by p.nodes) ≡ p.cursor }
{}
