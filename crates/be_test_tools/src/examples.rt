//! Worked examples, as text in the script language. Every form of a volume gives these replies: the
//! plain volume, the volume in pages, and the shared store.

/// An index contains only attributes that are set after it was created, and setting an attribute
/// again moves its pair.
const INDEX_MADE_LATER: &str = "new / set 1 size LONG 5 / mkindex size LONG => node 1 / ok / ok
query size==5 => nodes
set 1 size LONG 5 / query size==5 => ok / nodes 1
set 1 size LONG 6 / query size==5 / query size>=5 => ok / nodes / nodes 1";

pub const EQUAL_VALUES: &str = "mkindex k CSTR / new / new / new => ok / node 1 / node 2 / node 3
set 1 k CSTR x / set 2 k CSTR x / set 3 k CSTR x => ok / ok / ok
query k==x / drop 2 / query k==x => nodes 1 2 3 / ok / nodes 1 3
get 2 k / attrs 2 => none / refused 2 NoNode
new / attrs 4 => node 4 / attrs 0";

const INTEGERS: &str =
    "mkindex n LONG / new / new / new / new => ok / node 1 / node 2 / node 3 / node 4
set 1 n LONG 0 / set 2 n LONG -1 / set 3 n LONG 2147483647 / set 4 n LONG -2147483648 => ok / ok / \
     ok / ok
query n<0 / query n>=-2147483648 => nodes 2 4 / nodes 1 2 3 4
query n>2147483646 / query n==-0 / query n!=0 => nodes 3 / nodes 1 / nodes 2 3 4
query n!=abc / query n<99999999999999999999 => nodes / nodes
set 1 n LONG 2147483648 => bad line";

/// One of these strings has the maximum length.
pub const TEXTS: &str =
    "mkindex t CSTR / new / new / new / new => ok / node 1 / node 2 / node 3 / node 4
set 1 t CSTR a / set 2 t CSTR ab / set 3 t CSTR \"\" => ok / ok / ok
set 4 t CSTR xxxxxxxxxxxxxxxxxxxxxxxxxxxxxxxxxxxxxxxxxxxxxxxxxxxxxxxxxxxxxxxxxxxxxxxxxxxxxxxxxxxxxx\
     xxxxxxxxxxxxxxxxxxxxxxxxxxxxxxxxxxxxxxxxxxxx\
xxxxxxxxxxxxxxxxxxxxxxxxxxxxxxxxxxxxxxxxxxxxxxxxxxxxxxxxxxxxxxxxxxxxxxxxxxxxxxxxxxxxxxxxxxxxxxxxxxx\
     xxxxxxxxxxxxxxxxxxxxxxxxxx => ok
query t<ab / query t<=\"\" / query t>a => nodes 1 3 / nodes 3 / nodes 2 4";

const ABSENT_ATTRIBUTE: &str =
    "mkindex size LONG / new / new / set 1 size LONG 7 => ok / node 1 / node 2 / ok
query !(size<5) / query !(size>=5) => nodes 1 / nodes
query size!=7 / query size!=8 => nodes / nodes 1";

const PATTERNS: &str =
    "mkindex name CSTR / new / new / new / new => ok / node 1 / node 2 / node 3 / node 4
set 1 name CSTR x.c / set 2 name CSTR x.C / set 3 name CSTR é / set 4 name CSTR xh => ok / ok / ok \
     / ok
query name=\"*[ch]\" / query name==? => nodes 1 4 / nodes 3
query name==\"x.[a-d]\" / query name==\"x.[^a-d]\" => nodes 1 / nodes 2
query name==\"x.\\*\" / query name<\"x.[a-d]\" => nodes / nodes 2
query ((name==\"*[cC]\")&&(name!=\"b*\")) => nodes 1 2";

pub const TWO_INDICES: &str =
    "new / set 1 a LONG 1 / mkindex a LONG / mkindex b LONG => node 1 / ok / ok / ok
new / set 1 b LONG 2 / set 2 a LONG 1 / set 2 b LONG 2 => node 2 / ok / ok / ok
query a==1 && b==2 / query b==2 => nodes 2 / nodes 1 2
query a==1 || b==2 => nodes 1 2";

pub const COVERAGE: &str =
    "mkindex a LONG / new / set 1 a LONG 1 / set 1 b LONG 2 => ok / node 1 / ok / ok
query a==1||b==2 / query a==1&&b==2 => refused 17 NotCovered / nodes 1
query b==2 / query !(a==1||b==3) => refused 17 NotCovered / nodes";

const REFUSALS: &str =
    "new / drop 9 / unset 1 a / unset 1 \"\" => node 1 / refused 2 NoNode / refused 3 NoAttr / \
     refused 18 NameLength
mkindex r RAWT / rmindex r => refused 8 NotIndexable / refused 6 NoSuchIndex
mkindex r CSTR / mkindex r CSTR => ok / refused 5 IndexExists";

const KIND_CHANGE: &str =
    r#"mkindex k LONG / new / set 1 k LONG 5 / query k==5 => ok / node 1 / ok / nodes 1
set 1 k CSTR 5 / query k==5 => ok / nodes
get 1 k / attrs 1 => CSTR "5" / attrs 1 / "k" CSTR "5"
indices / attrs 2 => indices 1 / "k" LONG / refused 2 NoNode
set 1 k LONG 7 / query k>=5 => ok / nodes 1
unset 1 k / query k>=5 / unset 1 k => ok / nodes / refused 3 NoAttr"#;

const INDEX_REMOVED: &str =
    "mkindex k LONG / new / set 1 k LONG 5 / rmindex k => ok / node 1 / ok / ok
indices / query k==5 => indices 0 / refused 17 NotCovered
mkindex k LONG / mkindex k CSTR / query k==5 => ok / refused 5 IndexExists / nodes
set 1 k LONG 5 / query k==5 => ok / nodes 1
rmindex q / drop 9 / mkindex r RAWT => refused 6 NoSuchIndex / refused 2 NoNode / refused 8 \
     NotIndexable";

const UNSIGNED_VALUES: &str = "mkindex u ULLG / new / new => ok / node 1 / node 2
set 1 u ULLG 18446744073709551615 / set 2 u ULLG 0 => ok / ok
query u>9223372036854775807 / query u>-1 / query u==18446744073709551616 => nodes 1 / nodes 1 2 / \
 nodes
set 1 u ULLG 18446744073709551616 / set 2 u ULNG -1 => bad line / bad line
set 1 u ULNG 4294967295 / query u>=0 / get 1 u => ok / nodes 2 / ULNG 4294967295
mkindex n LONG / set 1 n LONG 5 => ok / ok
query n<9223372036854775808 / query n==00000000000000000005 => nodes 1 / nodes 1";

/// Lists of several operations, separated by `;`. Scripts use batches for these, so the shared
/// store isn't given any such list.
pub const LISTS: &str = r#"mkindex k LONG => ok
new;set 1 k LONG 5 => node 1 / ok
set 1 k LONG 6;drop 9 => refused 2 NoNode
drop 1;set 1 k LONG 6 => refused 2 NoNode
new;unset 2 k => refused 3 NoAttr
rmindex k;rmindex k => refused 6 NoSuchIndex
query k==5 / get 1 k => nodes 1 / LONG 5
set 1 m CSTR x;new;drop 1;new;set 3 k LONG 7 => ok / node 2 / ok / node 3 / ok
query k>=5 / attrs 3 => nodes 3 / attrs 1 / "k" LONG 7"#;

/// All examples except the lists.
pub const EXAMPLES: [&str; 12] = [
    INDEX_MADE_LATER,
    EQUAL_VALUES,
    INTEGERS,
    TEXTS,
    ABSENT_ATTRIBUTE,
    PATTERNS,
    TWO_INDICES,
    COVERAGE,
    REFUSALS,
    KIND_CHANGE,
    INDEX_REMOVED,
    UNSIGNED_VALUES,
];
