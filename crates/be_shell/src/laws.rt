//! Laws about the definitions. Each function does nothing; its contract is the law.
ghost use Rattle.std.specs.Prelude.{◌≡◌, List, ℕ, [], ◌∷◌, ◌++◌};
ghost use Rattle.be_script_language.specs.Request.{lines_of};
ghost use Rattle.be_script_runner.specs.Output.{Session, IsOutputTo, Outputs, opening};
ghost use Rattle.be_script_runner.specs.Store.{Store};
ghost use Rattle.be_shell.specs.Bytes.{AreShort, IsWhole, Known, known_do, knows};
ghost use Rattle.be_shell.specs.Conversation.{Event, IsTalk, TalkedTo, all_short, said};

/// A conversation writes the same output as its lines do in a script.
pub fn talk_is_output()
    ensures { (s last : Session) (lines : List (List ℕ)) (talk : List Event)
        → IsTalk s (all_short lines) talk last → Outputs s lines last (said talk) }
{}

/// A conversation over the lines of a script is an output of that script, and leaves the same
/// store, whether or not the empty line after a final LF is read.
pub fn talk_of_script_is_output()
    ensures whole { (store : Store) (script : List ℕ) (talk : List Event) (last : Session) →
        IsTalk (opening store) (all_short (lines_of script)) talk last
        → IsOutputTo store script last.store (said talk) }
    ensures ended { (store : Store) (script : List ℕ) (lines : List (List ℕ)) (talk : List Event)
        (last : Session) →
        lines_of script ≡ lines ++ [] ∷ [] → IsTalk (opening store) (all_short lines) talk last
        → IsOutputTo store script last.store (said talk) }
{}

/// If the bytes are a script without long lines, a conversation over all of them writes an output
/// of that script. `run` writes an output of the same script.
pub fn talk_of_bytes_is_output()
    ensures { (store : Store) (script reported : List ℕ) (last : Session) (end : Known)
        → AreShort (lines_of script) →
        TalkedTo known_do (opening store) (knows script reported) last end
        → IsWhole store script reported last end }
{}
