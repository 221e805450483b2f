//! Consequences of the definitions of the grammar and of canonical texts.
ghost use Rattle.std.specs.Prelude.{ℕ, ◌≡◌, ◌≤◌, false, List, Some, None, []};
ghost use Rattle.be_query.specs.Faults.{fault};
ghost use Rattle.be_query.specs.Grammar.{Formula, OrPhrase, comparisons, ParsesTo, IsTextOf};
ghost use Rattle.be_query.specs.Grammar.{Viable};
ghost use Rattle.be_query.specs.Grammar.{or_tokens};
ghost use Rattle.be_query.specs.Reading.{Awaited, Joint, Mark, read};
ghost use Rattle.be_query.specs.Tokens.{Token, plain};
ghost use Rattle.be_value.specs.Name.{has_nul};
ghost use Rattle.be_query.specs.Printing.{IsKept, IsPrintable, IsQuotable, IsWhole};
ghost use Rattle.be_query.specs.Printing.{with_backslashes, or_printed, or_text, limit_of};
ghost use Rattle.be_query.specs.Lexing.{tokens};

/// A list of tokens can be read if and only if some further tokens would complete it into a
/// sentence. It is a sentence if and only if it can be read and leaves nothing open. It has at most
/// one tree.
pub fn reading()
    ensures viable { (ts : List Token) (s : Awaited × List Mark) → read ts ≡ Some s → Viable ts }
    ensures stuck { (ts : List Token) → read ts ≡ None → Viable ts → ⊥ }
    ensures sentence { (ts : List Token) → read ts ≡ Some (Joint, []) → (o : OrPhrase)
        × (or_tokens o ≡ ts) }
    ensures whole { (o : OrPhrase) → read (or_tokens o) ≡ Some (Joint, []) }
    // The tokens of a printed tree encode that tree, provided that its names and values can be read
    // back.
    ensures printed { (t : Formula) → IsPrintable t → ParsesTo (or_printed t) t }
    ensures unescaped { (bs : List ℕ) → plain (with_backslashes bs) ≡ bs }
    ensures one_tree { (ts : List Token) (s t : Formula) → ParsesTo ts s → ParsesTo ts t → s ≡ t }
{}

/// The canonical text of a tree encodes that tree and, by `reading`, no other.
pub fn printing()
    // If every name and every value is a single token, the canonical text is split into the tokens
    // of the tree.
    ensures tokens { (t : Formula) → IsQuotable t → tokens (or_text t) ≡ or_printed t }
    // If printing preserves the names and values of the tree, the canonical text therefore encodes
    // the tree.
    ensures kept { (t : Formula) → IsKept t → IsTextOf (or_text t) t }
    ensures parses { (t : Formula) → IsQuotable t → IsPrintable t
        → ParsesTo (tokens (or_text t)) t }
    // A name, or the value of an order operator, is a single token if it contains no NUL.
    ensures whole { (bs : List ℕ) → has_nul bs ≡ false → IsWhole (with_backslashes bs) }
{}

/// The canonical text of a query has no error other than exceeding a limit. So `parse` reads it
/// back if it is at most 4,096 bytes long and no comparison is inside more than 64 parentheses. By
/// `printing`, the result is the same tree.
pub fn reading_back()
    ensures { (t : Formula) → IsKept t → comparisons t ≤ 256 → fault (or_text t) ≡ limit_of t }
{}
