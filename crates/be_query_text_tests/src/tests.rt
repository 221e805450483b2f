//! The text of queries, in lines `REQUEST => REPLY`. `compares` lists a query's comparisons: the
//! byte range, name, operator, operator in the text, form and value of each. `escapes` and `cases`
//! show the text that goes into a query. `never` shows, for each kind of integer, whether the first
//! comparison is false for every value.
use be_query::parse;
use be_query_text::{
    Compared, Form, any_case, comparisons, encoded_comparisons, escaped, is_never_true,
};
use be_test_tools::{Answers, check_lines};
use be_value::{Kind, Refusal};
use std::alloc::Global;
use std::test::Fail;

const COMPARED: &str = r#"compares a=1||!(b<2) => 0-3 a Eq Eq number 1 / 7-10 b Ge Lt number 2
compares !(c='x*'&&d) => Syntax(11)
compares !c='x*' => 1-7 c Ne Eq pattern x*
compares ö == [ä] && \(x != "a\"b" => 0-10 ö Eq Eq pattern [ä] / 14-27 (x Ne Ne text a"b
compares  !!a<=\5  => 3-8 a Le Le number 5
compares ((a>9223372036854775807)) => 2-23 a Gt Gt number 9223372036854775807
compares "a b"=='\*' => 0-11 a b Eq Eq text *
compares a='"'||b="'" => 0-5 a Eq Eq text " / 7-12 b Eq Eq text '
compares a>=-0 => 0-5 a Ge Ge number -0
compares b=18446744073709551616 => 0-22 b Eq Eq text 18446744073709551616
compares a= => Syntax(2)
compares a=1 & b=2 => Syntax(4)
compares a=[ => BadPattern(2)
compares !a => Syntax(2)"#;

const MADE: &str = r#"escapes [draft].txt => \[draft].txt
escapes a*b?c\d => a\*b\?c\\d
escapes "it's" => \"it\'s\"
escapes größe=漢 => größe\=漢
escapes (a&b|!c<d>e) => \(a\&b\|\!c\<d\>e\)
cases GÜNTHER => [gG][üÜ][nN][tT][hH][eE][rR]
cases günther => [gG][üÜ][nN][tT][hH][eE][rR]
cases dR.*1 => [dD][rR].\*1
cases σΣς => [σΣς][σΣς][σΣς]
cases 漢 => 漢"#;

const NEVER: &str = "never n==2147483647 => no no no no
never n==2147483648 => yes no no no
never n>2147483646 => no no no no
never n>2147483647 => yes no no no
never n>=2147483647 => no no no no
never n<-2147483648 => yes no yes yes
never n<=-2147483648 => no no yes yes
never n<-2147483647 => no no yes yes
never n<0 => no no yes yes
never n<=0 => no no no no
never !(n>=0) => no no yes yes
never n!=-1 => no no no no
never n==4294967295 => yes no no no
never n>4294967295 => yes no yes no
never n>9223372036854775807 => yes yes yes no
never n<-9223372036854775808 => yes yes yes yes
never n>18446744073709551615 => yes yes yes yes
never n!=1.5 => yes yes yes yes
never n==5* => yes yes yes yes
never n<\\5 => no no no no";

/// Replies to requests about a query's text.
#[derive(Drop)]
struct Texts;

impl Answers for Texts {
    fn reply(&mut self, alloc: Global, request: &str) -> Result<String, Refusal> {
        let (verb, text) = request.split_once(" ").unwrap_or((request, ""));
        match verb {
            "compares" => compared_lines(alloc, text),
            "escapes" => Ok(escaped(alloc, text)?),
            "cases" => Ok(any_case(alloc, text)?),
            _ => never_line(alloc, text),
        }
    }
}

/// A line for each comparison, or a line for the error.
fn compared_lines(alloc: Global, text: &str) -> Result<String, Refusal> {
    let compared = match comparisons(alloc, text) {
        Ok(compared) => compared,
        Err(Refusal::OutOfMemory) => return Err(Refusal::OutOfMemory),
        Err(refusal) => return Ok(format!(in alloc; "{:?}\n", refusal)?),
    };
    let mut lines = String::new(alloc);
    for one in &compared {
        lines.push_str(line_of(alloc, one)?.as_str())?;
    }
    Ok(lines)
}

/// The line of a comparison.
fn line_of(alloc: Global, one: &Compared) -> Result<String, Refusal> {
    let place = &one.place;
    let form = match one.form {
        Form::Number => "number",
        Form::Text => "text",
        Form::Pattern => "pattern",
    };
    Ok(format!(in alloc;
        "{}-{} {} {:?} {:?} {} {}\n",
        place.name.at,
        place.value.end,
        one.name.as_str(),
        one.op,
        place.op,
        form,
        one.words
    )?)
}

/// Whether the first comparison is never true, for each kind of integer.
fn never_line(alloc: Global, text: &str) -> Result<String, Refusal> {
    let compared = comparisons(alloc, text)?;
    let mut line = String::new(alloc);
    if let Some(one) = compared.first() {
        for kind in [Kind::Long, Kind::Llng, Kind::Ulng, Kind::Ullg] {
            let never = is_never_true(one.op, one.number, kind);
            line.push_str(if never { "yes " } else { "no " })?;
        }
    }
    Ok(String::from_str(alloc, line.as_str().trim_end())?)
}

/// Names, operators and values, and their positions.
#[test]
fn comparisons_are_found(rt: HostRuntime) -> Result<(), Fail> {
    check_lines(rt.alloc(), &mut Texts, COMPARED)
}

/// Characters that are escaped, and characters that match in both cases.
#[test]
fn texts_are_put_into_queries(rt: HostRuntime) -> Result<(), Fail> {
    check_lines(rt.alloc(), &mut Texts, MADE)
}

/// The lowest and highest number of each kind of integer, and the numbers next to these.
#[test]
fn integers_have_ranges(rt: HostRuntime) -> Result<(), Fail> {
    check_lines(rt.alloc(), &mut Texts, NEVER)
}

/// Whether a query of `count` comparisons gives `count` positions, and all the bytes of the names
/// and values.
fn has_all(alloc: Global, count: usize) -> Result<bool, Refusal> {
    let mut text = String::from_str(alloc, "n<1")?;
    for _ in 1..count {
        text.push_str("&&n<1")?;
    }
    let compared = comparisons(alloc, text.as_str())?;
    let encoding = encoded_comparisons(alloc, compared.as_slice())?;
    Ok(
        compared.len() == count
            && encoding.comparisons.len() == count
            && encoding.bytes.len() == 2 * count,
    )
}

/// Sizes at and next to each power of two, up to the maximum for a query.
#[test]
fn as_many_as_a_query_has(rt: HostRuntime) -> Result<(), Fail> {
    let alloc = rt.alloc();
    for count in [1, 2, 3, 127, 128, 129, 255, 256] {
        let all = match has_all(alloc, count) {
            Err(Refusal::OutOfMemory) => has_all(alloc, count)?,
            answer => answer?,
        };
        if !all {
            return Err(Fail::new("comparisons are missing"));
        }
    }
    match has_all(alloc, 257) {
        Err(Refusal::TooMany) | Err(Refusal::OutOfMemory) => Ok(()),
        _ => Err(Fail::new("257 comparisons")),
    }
}

/// Whether an escaped text is read back unchanged, as a name and as a value, with and without
/// quotes.
fn is_read_back(alloc: Global, text: &str) -> Result<bool, Refusal> {
    let name = escaped(alloc, text)?;
    for quote in ["\"", "'", ""] {
        let query = format!(in alloc; "{quote}{name}{quote}<{quote}{name}{quote}")?;
        parse(alloc, query.as_str())?;
        let compared = comparisons(alloc, query.as_str())?;
        let Some(one) = compared.first() else {
            return Ok(false);
        };
        if one.words.as_str() != text || one.name.as_str() != text {
            return Ok(false);
        }
    }
    Ok(true)
}

/// Each character that has a special meaning in a query or a pattern.
#[test]
fn escaped_texts_are_read_back(rt: HostRuntime) -> Result<(), Fail> {
    let alloc = rt.alloc();
    for text in ["*?[]^-", "\\\"' \t\n\r", "=!<>&|()", "größe 漢", "a"] {
        let back = match is_read_back(alloc, text) {
            Err(Refusal::OutOfMemory) => is_read_back(alloc, text)?,
            answer => answer?,
        };
        if !back {
            return Err(Fail::new(text));
        }
    }
    Ok(())
}

/// Whether each of `count` stars gets a backslash.
fn are_escaped(alloc: Global, count: usize) -> Result<bool, Refusal> {
    let mut stars = String::new(alloc);
    for _ in 0..count {
        stars.push('*')?;
    }
    Ok(escaped(alloc, stars.as_str())?.len() / 2 == count)
}

/// Sizes at and next to each power of two, up to the length of the longest query.
#[test]
fn texts_of_each_size(rt: HostRuntime) -> Result<(), Fail> {
    let alloc = rt.alloc();
    for count in [
        0, 1, 2, 3, 63, 64, 65, 127, 128, 129, 255, 256, 257, 1023, 1024, 1025, 4096,
    ] {
        let made = match are_escaped(alloc, count) {
            Err(Refusal::OutOfMemory) => are_escaped(alloc, count)?,
            answer => answer?,
        };
        if !made {
            return Err(Fail::new("a text is cut"));
        }
    }
    Ok(())
}
