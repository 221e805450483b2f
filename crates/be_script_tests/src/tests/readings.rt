//! Rules of the script language, one after another. A comment in a row is also a comment of its
//! script.
use super::{FIVE, check, check_after};
use std::test::Fail;

/// Which lines are comments or blank, and what a CR and other blank-like characters in a line mean.
#[test]
fn lines(rt: HostRuntime) -> Result<(), Fail> {
    check(
        rt.alloc(),
        "
        # A comment begins with the first character of its line.
        #new
        ␠# x => bad line
        ␉#x => bad line
        # A blank line has no reply, and blanks round words don't count.
        ␠␉
        ␉new␠␉ => node 1
        # One CR before the end of a line goes, before the line is found to be blank.
        ␍
        ␠␍
        new␍ => node 2
        ␍␍ => bad line
        new␍␍ => bad line
        # Any other CR is a character of a word, and parts tokens of a query.
        set 1 a␍b CSTR c␍d => ok
        attrs 1 => attrs 1 / \"a\\rb\" CSTR \"c\\rd\"
        query ␍a␍==␍1 => refused 17 NotCovered
        # VT, FF, a no-break space and a byte order mark are characters.
        set 2 a␋b CSTR c␌d => ok
        get 2 a␋b => CSTR \"c␌d\"
        new\u{a0} => bad line
        \u{feff}new => bad line
        set 2 n CSTR \u{feff}\u{a0} => ok
        get 2 n => CSTR \"\u{feff}\u{a0}\"",
    )
}

/// How a line is split into words, and what a quoted word stands for.
#[test]
fn words(rt: HostRuntime) -> Result<(), Fail> {
    check(
        rt.alloc(),
        "
        new => node 1
        mkindex k LONG => ok
        # Blanks part words.
        set␉1␠␠k␉␠LONG␠␉5 => ok
        # A quoted word ends at the next quote that no backslash escapes, and a blank or the end \
         of the line follows.
        set 1 \"a b\" CSTR \"c d\" => ok
        get 1 \"a b\" => CSTR \"c d\"
        set 1 t CSTR \"a\\\\\" => ok
        get 1 t => CSTR \"a\\\\\"
        set 1 t CSTR \"a\\\" => bad line
        set 1 t CSTR \"a => bad line
        set 1 t CSTR \"a\"b => bad line
        set 1 t CSTR \"a\"\"b\" => bad line
        # It has four escapes.
        set 1 t CSTR \"\\\"\\\\\\n\\r\" => ok
        get 1 t => CSTR \"\\\"\\\\\\n\\r\"
        set 1 t CSTR \"a\\tb\" => bad line
        set 1 t CSTR \"a\\0b\" => bad line
        # Any other word is taken as it is.
        set 1 t CSTR a\"b\\n => ok
        get 1 t => CSTR \"a\\\"b\\\\n\"
        # Numbers, kinds and values may be quoted; the command may not.
        set \"1\" \"k\" \"LONG\" \"5\" => ok
        get \"1\" k => LONG 5
        mkindex q \"CSTR\" => ok
        \"new\" => bad line
        \"query\" k==5 => bad line
        # Names are printed with the four escapes, by `explain` with those of queries.
        mkindex \"\\\"\\\\\\n\\r\" LONG => ok
        indices => indices 3 / \"\\\"\\\\\\n\\r\" LONG / \"k\" LONG / \"q\" CSTR
        mkindex \"a\\\"b\\\\c\\rd\" LONG => ok
        explain \"a\\\"b\\\\c␍d\"==1 => \"a\\\"b\\\\c␍d\"==\"1\" score 1",
    )
}

/// A line with an unknown command, or with too many or too few words, is bad.
#[test]
fn counts(rt: HostRuntime) -> Result<(), Fail> {
    check(
        rt.alloc(),
        "
        # A command that isn't known, or is written otherwise.
        sett 1 => bad line
        New => bad line
        new␀ => bad line
        # Too many words or too few.
        new 1 => bad line
        drop => bad line
        drop 1 2 => bad line
        set 1 k LONG => bad line
        set 1 k LONG 5 6 => bad line
        unset 1 => bad line
        unset 1 k k => bad line
        mkindex k => bad line
        mkindex k LONG LONG => bad line
        rmindex => bad line
        rmindex k k => bad line
        get 1 => bad line
        get 1 k k => bad line
        attrs => bad line
        attrs 1 1 => bad line
        indices 1 => bad line
        pin 1 => bad line
        unpin 1 => bad line
        refresh k==1 => bad line
        \"pin\" => bad line
        Pin => bad line
        begin 1 => bad line
        commit 1 => bad line
        abort 1 => bad line",
    )
}

/// The digits and the range of a node's number, and of LONG, LLNG, ULNG and ULLG values.
#[test]
fn numbers(rt: HostRuntime) -> Result<(), Fail> {
    check(
        rt.alloc(),
        r#"
        new => node 1
        # A node is 1 to 20 digits within 64 bits.
        drop 00000000000000000099 => refused 2 NoNode
        drop 000000000000000000099 => bad line
        drop 18446744073709551615 => refused 2 NoNode
        drop 18446744073709551616 => bad line
        drop "" => bad line
        drop -1 => bad line
        drop 1␀ => bad line
        unset x k => bad line
        get x k => bad line
        attrs x => bad line
        # Digits are those of ASCII, and there is no plus.
        drop +1 => bad line
        drop １ => bad line
        set 1 k LONG +5 => bad line
        set 1 k LONG ٥ => bad line
        # LONG and LLNG have an optional minus and 1 to 19 digits.
        set 001 k LONG -0 => ok
        get 1 k => LONG 0
        set 1 k LONG - => bad line
        set 1 k LONG --5 => bad line
        set 1 k LONG 5␀ => bad line
        set 1 k LONG 0000000000000000005 => ok
        set 1 k LONG 00000000000000000005 => bad line
        set 1 k LONG -0000000000000000005 => ok
        set 1 k LONG 2147483647 => ok
        set 1 k LONG 2147483648 => bad line
        set 1 k LONG -2147483648 => ok
        set 1 k LONG -2147483649 => bad line
        get 1 k => LONG -2147483648
        set 1 k LLNG 9223372036854775807 => ok
        set 1 k LLNG 9223372036854775808 => bad line
        set 1 k LLNG -9223372036854775808 => ok
        set 1 k LLNG -9223372036854775809 => bad line
        get 1 k => LLNG -9223372036854775808
        # ULNG and ULLG have 1 to 20 digits.
        set 1 k ULNG 00000000004294967295 => ok
        set 1 k ULNG 4294967296 => bad line
        set 1 k ULNG -0 => bad line
        set 1 k ULLG 00000000000000000005 => ok
        set 1 k ULLG 000000000000000000005 => bad line
        set 1 k ULLG -1 => bad line
        get 1 k => ULLG 5"#,
    )
}

/// The kinds, and which words encode a value of each.
#[test]
fn kinds(rt: HostRuntime) -> Result<(), Fail> {
    check(
        rt.alloc(),
        "
        new => node 1
        # Seven kinds, by their words.
        set 1 k FLOT 1 => bad line
        set 1 k long 1 => bad line
        set 1 k LONG␀ 1 => bad line
        mkindex q TEXT => bad line
        # RAWT has an even number of hexadecimal digits of either case, none too.
        set 1 r RAWT \"\" => ok
        get 1 r => RAWT \"\"
        set 1 r RAWT 0aFf => ok
        get 1 r => RAWT \"0aff\"
        set 1 r RAWT 0af => bad line
        set 1 r RAWT 0g => bad line
        set 1 r RAWT 00␀ => bad line
        set 1 r RAWT {255*9F} => ok
        get 1 r => RAWT \"{255*9f}\"
        set 1 r RAWT {256*9F} => refused 19 DataLength
        # MIMS is a text.
        set 1 m MIMS text/plain => ok
        get 1 m => MIMS \"text/plain\"
        set 1 m MIMS {256*x} => refused 19 DataLength
        # Attributes are listed by name, by its bytes.
        set 1 é CSTR \"\" => ok
        set 1 Z LONG 5 => ok
        attrs 1 => attrs 4 / \"Z\" LONG 5 / \"m\" MIMS \"text/plain\" / \"r\" RAWT \"{255*9f}\" / \
         \"é\" CSTR \"\"",
    )
}

/// Every cause of a bad line is reported before an error of the store, and those errors have an
/// order too.
#[test]
fn order_of_faults(rt: HostRuntime) -> Result<(), Fail> {
    check(
        rt.alloc(),
        r#"
        new => node 1
        # All causes of a bad line go before a refusal.
        set 99 "" LONG x => bad line
        set x "" CSTR x => bad line
        set 99 "" CSTR "x => bad line
        mkindex "" TEXT => bad line
        # Then comes the name, then the value, then the store.
        set 99 "" CSTR x => refused 18 NameLength
        set 99 "" CSTR {256*x} => refused 18 NameLength
        set 99 k CSTR {256*x} => refused 19 DataLength
        set 99 k CSTR x => refused 2 NoNode
        set 1 {63*x} CSTR x => ok
        set 1 {64*x} CSTR x => refused 18 NameLength
        set 1 {32*é} CSTR x => refused 18 NameLength
        unset 1 {63*x} => ok
        unset 99 "" => refused 18 NameLength
        unset 99 k => refused 2 NoNode
        mkindex "" RAWT => refused 18 NameLength
        rmindex "" => refused 18 NameLength
        get 99 "" => refused 18 NameLength
        # A NUL is refused beyond a length.
        set 1 a␀b CSTR x => refused 20 HasNul
        set 1 {63*x}␀ CSTR x => refused 18 NameLength
        set 1 k CSTR a␀b => refused 20 HasNul
        set 1 k MIMS a␀b => refused 20 HasNul
        set 1 k CSTR {255*x}␀ => refused 19 DataLength
        # Nothing is there: `get` says so, `attrs` is refused.
        get 99 k => none
        get 1 k => none
        attrs 99 => refused 2 NoNode
        attrs 1 => attrs 0
        indices => indices 0"#,
    )
}

/// The text of a query isn't split into words, and its errors report their place.
#[test]
fn query_texts(rt: HostRuntime) -> Result<(), Fail> {
    check(
        rt.alloc(),
        r#"
        new => node 1
        mkindex k LONG => ok
        set 1 k LONG 5 => ok
        # A text isn't split into words, and what `explain` prints can be asked.
        query "a => refused 12 Syntax 2
        explain k == 5 && "a b"=='c d' => "k"=="5" score 1
        query "k"=="5" => nodes 1
        # Blanks at its end belong to it; one of blanks alone is empty.
        query a==1 &&␠␠ => refused 12 Syntax 9
        query ␠␉␠ => refused 12 Syntax 0
        explain => refused 12 Syntax 0
        # The grammar decides on a NUL.
        query k==␀ => refused 12 Syntax 3
        query k==5␀ => refused 12 Syntax 4
        query {64*x}␀ => refused 12 Syntax 0
        query a==[␀ => refused 13 BadPattern 3
        query {64*x}\␀ => refused 12 Syntax 65
        query a=="x␀ => refused 12 Syntax 5
        # A name of 64 bytes can't stand, and one that isn't read whole has no length.
        query {64*x}==1 => refused 12 Syntax 0
        query "{64*x} => refused 12 Syntax 65
        query a=="[z-a => refused 12 Syntax 8
        # A broken token where none may stand is a fault at its first byte.
        query a==1 "b => refused 12 Syntax 5
        query a==1 b\ => refused 12 Syntax 5
        query a==1 "b␀ => refused 12 Syntax 5
        # A word may begin with a backslash.
        mkindex (x LONG => ok
        explain \(x==1 => "(x"=="1" score 1
        # The text's own faults go before the cover's.
        query missing==[ => refused 13 BadPattern 9
        query missing==1 => refused 17 NotCovered
        explain missing== => refused 12 Syntax 9
        explain missing==1 => refused 17 NotCovered"#,
    )
}

/// Comparisons with sets, with numbers, and with texts that encode no number; and faulty sets.
#[test]
fn comparisons(rt: HostRuntime) -> Result<(), Fail> {
    check(
        rt.alloc(),
        r#"
        new => node 1
        new => node 2
        mkindex k LONG => ok
        set 1 k LONG 5 => ok
        set 2 k LONG -5 => ok
        set 1 r RAWT 00 => ok
        # A set is a wildcard, so it is no number.
        query k==[5] => nodes
        explain k==[5] => "k"=="[5]" score 4
        # A number is read without its backslashes.
        query k==\5 => nodes 1
        query k=='\-5' => nodes 2
        # Without a number a comparison is false, and so is its complement; of RAWT each is.
        query k!=x => nodes
        query !(k!=x) => nodes
        query k<x => nodes
        query !(k<x) => nodes
        query k==5 && r==00 => nodes
        query k==5 && !(r==00) => nodes
        query k==5 && r>"" => nodes
        # Faulty sets, and those that look so.
        query k=="[]a]" => refused 13 BadPattern 4
        query k=="[^]]" => refused 13 BadPattern 4
        query k=="[a--]" => refused 13 BadPattern 4
        explain k=="[a-b-c]" => "k"=="[a-b\-c]" score 4
        explain k=="[--a]" => "k"=="[\--a]" score 4
        explain k=="[a-a]" => "k"=="[a]" score 4"#,
    )
}

/// A batch keeps its operations until `commit` or `abort`, whatever other lines come between.
#[test]
fn batches(rt: HostRuntime) -> Result<(), Fail> {
    check(
        rt.alloc(),
        r#"
        new => node 1
        mkindex k LONG => ok
        # A line that is bad or refused leaves the batch as it was, and so does `begin`.
        begin => ok
        set 1 k LONG 5 => queued
        sett => bad line
        unset 1 "" => refused 18 NameLength
        set 1 k CSTR a␀b => refused 20 HasNul
        begin => already begun
        # Other lines answer from the last commit.
        get 1 k => none
        query k==5 => nodes
        attrs 1 => attrs 0
        commit => commit 3 / ok
        get 1 k => LONG 5
        # The store's refusals come at the commit, and end the batch.
        begin => ok
        unset 1 k => queued
        mkindex r RAWT => queued
        indices => indices 1 / "k" LONG
        commit => refused 8 NotIndexable
        commit => not begun
        get 1 k => LONG 5
        # The first operation that is refused decides.
        begin => ok
        drop 9 => queued
        mkindex k LONG => queued
        commit => refused 2 NoNode
        # An empty batch stays open.
        begin => ok
        commit => empty batch
        new => queued
        commit => commit 4 / node 2
        # A batch that is open at the end is dropped.
        begin => ok
        new => queued"#,
    )
}

/// A pin is the number of accepted writes, and stays until `unpin`.
#[test]
fn pins(rt: HostRuntime) -> Result<(), Fail> {
    check_after(
        rt.alloc(),
        FIVE,
        "
        # A pin is the number of accepted writes.
        pin => pin 3
        # A second one changes nothing, and no write moves a pin.
        new => node 2
        pin => already pinned
        set 1 k LONG 6 => ok
        set 2 k LONG 7 => ok
        mkindex n LONG => ok
        rmindex k => ok
        # Every line that reads answers from the pinned version.
        query k==5 => nodes 1
        query k>=5 => nodes 1
        get 1 k => LONG 5
        get 2 k => none
        attrs 1 => attrs 1 / \"k\" LONG 5
        attrs 2 => refused 2 NoNode
        indices => indices 1 / \"k\" LONG
        # So does `explain`, which is chosen by the indices of that version.
        explain k==5 => \"k\"==\"5\" score 1
        explain n==5 => refused 17 NotCovered
        query n==5 => refused 17 NotCovered
        # A write is refused by the last version, not by the pinned one.
        unset 2 n => refused 3 NoAttr
        mkindex n LONG => refused 5 IndexExists
        drop 3 => refused 2 NoNode
        # Without a pin a line reads what is there, and leaves no pin beyond.
        unpin => ok
        get 2 k => LONG 7
        indices => indices 1 / \"n\" LONG
        explain n==5 => \"n\"==\"5\" score 1
        query k==5 => refused 17 NotCovered
        attrs 2 => attrs 1 / \"k\" LONG 7
        unpin => not pinned
        pin => pin 8
        unpin => ok
        # A refused write doesn't count.
        drop 9 => refused 2 NoNode
        pin => pin 8
        # A pin of the version after all writes is left beyond by the next write, by each in its \
         turn.
        drop 1 => ok
        attrs 1 => attrs 1 / \"k\" LONG 6
        drop 2 => ok
        attrs 1 => attrs 1 / \"k\" LONG 6
        # A pin may be open at the end.",
    )
}

/// A pin and an open batch don't change each other.
#[test]
fn pins_and_batches(rt: HostRuntime) -> Result<(), Fail> {
    check(
        rt.alloc(),
        r#"
        # Lines that pin don't see the batch, and leave it as it was.
        begin => ok
        new => queued
        pin => pin 0
        pin => already pinned
        attrs 1 => refused 2 NoNode
        commit => commit 1 / node 1
        # Nor does a commit move the pin.
        attrs 1 => refused 2 NoNode
        begin => ok
        set 1 k LONG 5 => queued
        unpin => ok
        unpin => not pinned
        attrs 1 => attrs 0
        pin => pin 1
        abort => ok
        attrs 1 => attrs 0
        # A refused commit leaves the pin where it was.
        new => node 2
        begin => ok
        drop 9 => queued
        commit => refused 2 NoNode
        attrs 2 => refused 2 NoNode
        unpin => ok
        attrs 2 => attrs 0"#,
    )
}

/// What `live` and `refresh` reply, and what leaves a live query as it was.
#[test]
fn live_queries(rt: HostRuntime) -> Result<(), Fail> {
    check(
        rt.alloc(),
        r#"
        refresh => no live query
        # What is asked rests on no index: that is told by each refresh.
        live k>4 => ok
        refresh => refused 17 NotCovered
        mkindex k LONG => ok
        refresh => created / removed
        new => node 1
        new => node 2
        set 1 k LONG 5 => ok
        set 2 k LONG 7 => ok
        refresh => created 1 2 / removed
        # A refused `live` leaves the earlier one, with its last answer.
        live k>= => refused 12 Syntax 3
        live => refused 12 Syntax 0
        live k==[ => refused 13 BadPattern 3
        refresh => created / removed
        # An accepted one begins with an empty answer, for the same text too.
        live k>4 => ok
        refresh => created 1 2 / removed
        # A refused refresh leaves the last answer.
        rmindex k => ok
        refresh => refused 17 NotCovered
        mkindex k LONG => ok
        refresh => created / removed 1 2
        set 1 k LONG 5 => ok
        refresh => created 1 / removed
        # A refresh answers from the pin, or else from the last write.
        pin => pin 8
        set 2 k LONG 8 => ok
        set 1 k LONG 1 => ok
        refresh => created / removed
        query k>4 => nodes 1
        unpin => ok
        refresh => created 2 / removed 1
        # Going back to an earlier version is a change as any other.
        drop 2 => ok
        refresh => created / removed 2
        # Blanks at the end of the text belong to it, and it isn't split into words.
        live k>4 &&␠ => refused 12 Syntax 7
        live "k">"4" => ok
        refresh => created / removed
        # A batch isn't seen before its commit, and changes nothing of the live query.
        begin => ok
        set 1 k LONG 9 => queued
        refresh => created / removed
        commit => commit 12 / ok
        refresh => created 1 / removed"#,
    )
}
