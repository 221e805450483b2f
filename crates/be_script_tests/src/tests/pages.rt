//! Pages in the order of an index: what `page` asks for, and what it finds.
use super::{FIVE, check, check_after};
use std::test::Fail;

/// Rows that make five letters: two with the same time, and one without a time.
const LETTERS: &str = r#"mkindex w LLNG => ok
mkindex b CSTR => ok
new => node 1
new => node 2
new => node 3
new => node 4
new => node 5
set 1 w LLNG 20 => ok
set 2 w LLNG -10 => ok
set 3 w LLNG 20 => ok
set 4 w LLNG 30 => ok
set 1 b CSTR in => ok
set 2 b CSTR in => ok
set 3 b CSTR in => ok
set 4 b CSTR "o\"t" => ok
set 5 b CSTR in => ok"#;

/// Pages in both directions, of one node and of all, with a filter, and after places with and
/// without a node.
#[test]
fn orders(rt: HostRuntime) -> Result<(), Fail> {
    check_after(
        rt.alloc(),
        LETTERS,
        r#"
        # By value, and those of one value by number; a node without a value isn't there.
        page by w limit 1 b==* => nodes 2 / more after LLNG -10 2
        page by w after LLNG -10 2 limit 1 b==* => nodes 1 / more after LLNG 20 1
        page by w after LLNG 20 1 limit 1 b==* => nodes 3 / more after LLNG 20 3
        page by w after LLNG 20 3 limit 1 b==* => nodes 4 / end after LLNG 30 4
        page by w after LLNG 30 4 limit 1 b==* => nodes / end
        # Exactly the reverse.
        page by w descending limit 3 b==* => nodes 4 3 1 / more after LLNG 20 1
        page by w descending after LLNG 20 1 limit 3 b==* => nodes 2 / end after LLNG -10 2
        page by w descending after LLNG -10 2 limit 3 b==* => nodes / end
        # One less than there are, as many, and more.
        page by w limit 3 b==* => nodes 2 1 3 / more after LLNG 20 3
        page by w limit 4 b==* => nodes 2 1 3 4 / end after LLNG 30 4
        page by w limit 5 b==* => nodes 2 1 3 4 / end after LLNG 30 4
        page by w limit 18446744073709551615 b==* => nodes 2 1 3 4 / end after LLNG 30 4
        # Of the nodes that the query finds alone; also by the name of the query.
        page by w descending limit 2 b==in => nodes 3 1 / more after LLNG 20 1
        page by w descending limit 3 b==in => nodes 3 1 2 / end after LLNG -10 2
        page by w descending limit 9 w<30 => nodes 3 1 2 / end after LLNG -10 2
        page by w limit 9 w>30 => nodes / end
        # By a text, whose place is quoted.
        page by b descending limit 1 w>=0 => nodes 4 / more after CSTR "o\"t" 4
        page by b descending after CSTR "o\"t" 4 limit 1 w>=0 => nodes 3 / more after CSTR "in" 3
        page by b after CSTR in 3 limit 9 w>=0 => nodes 4 / end after CSTR "o\"t" 4
        # A place may have no node.
        page by w after LLNG 20 2 limit 9 b==* => nodes 3 4 / end after LLNG 30 4
        page by w after LLNG 21 0 limit 9 b==* => nodes 4 / end after LLNG 30 4
        page by w after LLNG -11 0 limit 1 b==* => nodes 2 / more after LLNG -10 2
        page by w descending after LLNG 20 9 limit 1 b==* => nodes 3 / more after LLNG 20 3
        page by w after LLNG 30 18446744073709551615 limit 1 b==* => nodes / end
        page by b after CSTR "" 0 limit 1 w>=0 => nodes 1 / more after CSTR "in" 1"#,
    )
}

/// Which words a line has, and in which order.
#[test]
fn words(rt: HostRuntime) -> Result<(), Fail> {
    check_after(
        rt.alloc(),
        LETTERS,
        r#"
        # Blanks separate words, and all but the command may be quoted.
        ␉page␉by␠␠w limit␠1␉␠b==in => nodes 2 / more after LLNG -10 2
        page "by" "w" "after" "LLNG" "20" "3" "limit" "1" b==* => nodes 4 / end after LLNG 30 4
        page by w "descending" limit 9 w>20 => nodes 4 / end after LLNG 30 4
        "page" by w limit 1 b==* => bad line
        Page by w limit 1 b==* => bad line
        # A name may be any word.
        mkindex descending LONG => ok
        mkindex limit LONG => ok
        page by descending limit 1 b==* => nodes / end
        page by descending descending limit 1 b==* => nodes / end
        page by limit limit 1 b==* => nodes / end
        # Words are missing, or in another order.
        page => bad line
        page by => bad line
        page by w => bad line
        page w limit 1 b==* => bad line
        page by w b==* => bad line
        page by w limit => bad line
        page by limit 1 b==* => bad line
        page by w By limit 1 b==* => bad line
        page by w after LLNG 20 limit 1 b==* => bad line
        page by w after LLNG 20 1 descending limit 1 b==* => bad line
        page by w limit 1 descending b==* => refused 12 Syntax 11
        page descending by w limit 1 b==* => bad line
        # A malformed word.
        page by "w limit 1 b==* => bad line
        page by w limit "1"b==* => bad line
        # A kind, a value, a node or a count that isn't one.
        page by w after TIME 20 1 limit 1 b==* => bad line
        page by w after LLNG x 1 limit 1 b==* => bad line
        page by w after LLNG 20 x limit 1 b==* => bad line
        page by w after LLNG 20 18446744073709551616 limit 1 b==* => bad line
        page by w limit 0 b==* => bad line
        page by w limit 00 b==* => bad line
        page by w limit -1 b==* => bad line
        page by w limit x b==* => bad line
        page by w limit 18446744073709551616 b==* => bad line
        page by w limit 00000000000000000001 b==* => nodes 2 / more after LLNG -10 2"#,
    )
}

/// At which place of a line its text begins, and which error is reported first.
#[test]
fn refusals(rt: HostRuntime) -> Result<(), Fail> {
    check_after(
        rt.alloc(),
        LETTERS,
        r#"
        # The text is the rest of the line, and its errors have their place in it.
        page by w limit 1 => refused 12 Syntax 0
        page by w limit 1␠␠b== => refused 12 Syntax 3
        page by w limit 1 b==* &&␠ => refused 12 Syntax 8
        page by w limit 1 b==[ => refused 13 BadPattern 3
        page by w after LLNG 20 1 limit 1 "b"=='in' => nodes 3 / end after LLNG 20 3
        # First the name, then the value, then the text.
        page by "" after CSTR {256*x} 1 limit 1 b== => refused 18 NameLength
        page by {64*x} limit 1 b== => refused 18 NameLength
        page by w after CSTR {256*x} 1 limit 1 b== => refused 19 DataLength
        page by w after CSTR {255*x} 1 limit 1 b== => refused 12 Syntax 3
        page by w after CSTR a␀b 1 limit 1 b== => refused 20 HasNul
        page by none limit 1 b== => refused 12 Syntax 3
        # Then the index, which has to be one of the value's kind, and then what the query rests on.
        page by none limit 1 none==1 => refused 6 NoSuchIndex
        page by none after LLNG 20 1 limit 1 b==* => refused 6 NoSuchIndex
        page by w after LONG 20 1 limit 1 none==1 => refused 6 NoSuchIndex
        page by w after ULLG 20 1 limit 1 b==* => refused 6 NoSuchIndex
        page by b after MIMS in 1 limit 1 b==* => refused 6 NoSuchIndex
        page by b after RAWT 00 1 limit 1 b==* => refused 6 NoSuchIndex
        page by w limit 1 none==1 => refused 17 NotCovered"#,
    )
}

/// A page continues from its place, whatever was written in between, and reads the pinned version.
#[test]
fn places_stay(rt: HostRuntime) -> Result<(), Fail> {
    let rows = "
        new => node 2
        new => node 3
        set 2 k LONG 20 => ok
        set 3 k LONG 30 => ok
        page by k limit 2 k>=0 => nodes 1 2 / more after LONG 20 2
        # A node whose value is now before the place isn't seen; one that is after it is seen again.
        new => node 4
        set 4 k LONG 15 => ok
        set 1 k LONG 25 => ok
        page by k after LONG 20 2 limit 2 k>=0 => nodes 1 3 / end after LONG 30 3
        # The place stays when its node has gone.
        drop 2 => ok
        page by k after LONG 20 2 limit 2 k>=0 => nodes 1 3 / end after LONG 30 3
        # A batch isn't seen before its commit, and a pin reads its version.
        begin => ok
        set 3 k LONG 1 => queued
        page by k limit 9 k>=0 => nodes 4 1 3 / end after LONG 30 3
        pin => pin 11
        commit => commit 12 / ok
        page by k limit 9 k>=0 => nodes 4 1 3 / end after LONG 30 3
        unpin => ok
        page by k limit 9 k>=0 => nodes 3 4 1 / end after LONG 25 1
        # An index that was made again is empty, and may be of another kind.
        rmindex k => ok
        page by k limit 9 k>=0 => refused 6 NoSuchIndex
        mkindex k LLNG => ok
        page by k limit 9 k>=0 => nodes / end
        page by k after LONG 25 1 limit 9 k>=0 => refused 6 NoSuchIndex";
    check_after(rt.alloc(), FIVE, rows)
}

/// The pages of each kind that an index may have, at both ends of its values.
#[test]
fn kinds(rt: HostRuntime) -> Result<(), Fail> {
    check(
        rt.alloc(),
        r#"
        new => node 1
        new => node 2
        mkindex i LONG => ok
        mkindex l LLNG => ok
        mkindex u ULNG => ok
        mkindex v ULLG => ok
        mkindex t CSTR => ok
        set 1 i LONG -2147483648 => ok
        set 2 i LONG 2147483647 => ok
        set 1 l LLNG -9223372036854775808 => ok
        set 2 l LLNG 9223372036854775807 => ok
        set 1 u ULNG 0 => ok
        set 2 u ULNG 4294967295 => ok
        set 1 v ULLG 0 => ok
        set 2 v ULLG 18446744073709551615 => ok
        set 1 t CSTR "" => ok
        set 2 t CSTR {255*x} => ok
        page by i limit 1 t==* => nodes 1 / more after LONG -2147483648 1
        page by i after LONG -2147483648 1 limit 1 t==* => nodes 2 / end after LONG 2147483647 2
        page by i after LONG 2147483647 2 limit 1 t==* => nodes / end
        page by l limit 1 t==* => nodes 1 / more after LLNG -9223372036854775808 1
        page by l after LLNG 0 0 limit 1 t==* => nodes 2 / end after LLNG 9223372036854775807 2
        page by l descending after LLNG -9223372036854775808 1 limit 1 t==* => nodes / end
        page by l after LLNG 9223372036854775807 2 limit 1 t==* => nodes / end
        page by u descending limit 1 t==* => nodes 2 / more after ULNG 4294967295 2
        page by u descending after ULNG 4294967295 2 limit 1 t==* => nodes 1 / end after ULNG 0 1
        page by v limit 1 t==* => nodes 1 / more after ULLG 0 1
        page by v after ULLG 0 1 limit 1 t==* => nodes 2 / end after ULLG 18446744073709551615 2
        page by t limit 1 i<=0 || i>0 => nodes 1 / more after CSTR "" 1
        page by t after CSTR "" 1 limit 1 t==* => nodes 2 / end after CSTR "{255*x}" 2
        page by t after CSTR {255*x} 2 limit 1 t==* => nodes / end"#,
    )
}
