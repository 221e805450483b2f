//! What a line requests.
//!
//! The checks come in a fixed order: whether the line is valid UTF-8, whether it has a reply at
//! all, its command word, and the words after that. A line that isn't well-formed is a bad line. If
//! it is well-formed but no store accepts its name or value, the request contains the error.
ghost use Rattle.std.specs.List.{list_all};
ghost use Rattle.std.specs.Option.{option_map};
ghost use Rattle.std.specs.Prelude.{◌≡◌, IfOk, string_bytes};
ghost use Rattle.std.specs.Str.{chars};
ghost use Rattle.std.specs.Str.Lines.{strip_carriage_return};
ghost use Rattle.be_value.specs.Name.{name_from};
ghost use Rattle.be_script_language.specs.Request as spec;
ghost use Rattle.be_script_language.specs.Words.{is_blank};

use crate::commands::{Command, command_named};
use crate::pages::{Paging, page_asked};
use crate::values::{kind_of, value_of};
use crate::words::{first_word, is_empty, one_word, skip, split_word, text_of, two_words};
use be_value::{Kind, Name, Refusal, Value, word_of};
use be_volume::Op;
use std::alloc::{AllocError, Global};
use std::str;

/// What a line requests.
#[derive(Debug, Drop)]
pub enum Request {
    /// The line has no reply.
    Silent,
    /// The line is malformed.
    Malformed,
    /// An operation, or the error of its name or value.
    Write(Result<Op, Refusal>),
    /// A query's text.
    Query(String),
    /// The requested page, or the error of its name or value, with the query's text.
    Page(Result<Paging, Refusal>, String),
    /// The text of a query to explain.
    Explain(String),
    Get(u64, Result<Name, Refusal>),
    Attrs(u64),
    Indices,
    Pin,
    Unpin,
    /// The text of a live query.
    Live(String),
    Refresh,
    Begin,
    Commit,
    Abort,
}

ghost use Rattle.be_script_language.specs.View.{request_of};

/// This request, if the command is the only word.
fn bare(request: Request, rest: &[char]) -> Option<Request>
    ensures { option_map request_of result ≡ spec.bare (request_of request) rest.now }
{
    if is_empty(rest) { Some(request) } else { None }
}

fn unset_op(node: u64, name: &str) -> Result<Op, Refusal>
    ensures { result ≡ spec.named (λ name. Op.Unset node name) name.now }
{
    Ok(Op::Unset(node, Name::new(name)?))
}

fn mkindex_op(name: &str, kind: Kind) -> Result<Op, Refusal>
    ensures { result ≡ spec.named (λ name. Op.MkIndex name kind) name.now }
{
    Ok(Op::MkIndex(Name::new(name)?, kind))
}

fn rmindex_op(name: &str) -> Result<Op, Refusal>
    ensures { result ≡ spec.named Op.RmIndex name.now }
{
    Ok(Op::RmIndex(Name::new(name)?))
}

/// The operation that sets an attribute. An error in the name comes before an error in the value.
fn set_op(node: u64, name: &str, value: Result<Value, Refusal>) -> Result<Op, Refusal>
    ensures { result ≡ spec.set_op node (name_from name.now) value }
{
    let name = Name::new(name)?;
    Ok(Op::Set(node, name, value?))
}

/// Builds the request `set N NAME KIND VALUE` from its four words. Returns `None` if the line is
/// bad.
fn set_from(
    alloc: Global,
    node: &str,
    name: &str,
    kind: &str,
    value: &str,
) -> Result<Option<Request>, AllocError>
    ensures { IfOk result (λ request. option_map request_of request
        ≡ spec.set_from node.now name.now kind.now value.now) }
{
    let Some(node) = word_of(node.as_bytes()) else {
        return Ok(None);
    };
    let Some(kind) = kind_of(kind) else {
        return Ok(None);
    };
    match value_of(alloc, kind, value)? {
        Some(value) => Ok(Some(Request::Write(set_op(node, name, value)))),
        None => Ok(None),
    }
}

/// Reads the request of a line `set` from the text after the command. Returns `None` if the line is
/// bad.
fn set_request(alloc: Global, rest: &[char]) -> Result<Option<Request>, AllocError>
    ensures { IfOk result (λ request. option_map request_of request ≡ spec.set_in rest.now) }
{
    let Some((node, rest)) = first_word(alloc, rest)? else {
        return Ok(None);
    };
    let Some((name, rest)) = first_word(alloc, rest)? else {
        return Ok(None);
    };
    match two_words(alloc, rest)? {
        Some((kind, value)) => set_from(
            alloc,
            node.as_str(),
            name.as_str(),
            kind.as_str(),
            value.as_str(),
        ),
        None => Ok(None),
    }
}

/// The number that the only word encodes.
fn only_number(alloc: Global, rest: &[char]) -> Result<Option<u64>, AllocError>
    ensures { IfOk result (λ number. number ≡ spec.only_number_in rest.now) }
{
    match one_word(alloc, rest)? {
        Some(word) => Ok(word_of(word.as_bytes())),
        None => Ok(None),
    }
}

fn drop_request(alloc: Global, rest: &[char]) -> Result<Option<Request>, AllocError>
    ensures { IfOk result (λ request. option_map request_of request ≡ spec.drop_in rest.now) }
{
    match only_number(alloc, rest)? {
        Some(node) => Ok(Some(Request::Write(Ok(Op::Drop(node))))),
        None => Ok(None),
    }
}

fn attrs_request(alloc: Global, rest: &[char]) -> Result<Option<Request>, AllocError>
    ensures { IfOk result (λ request. option_map request_of request ≡ spec.attrs_in rest.now) }
{
    match only_number(alloc, rest)? {
        Some(node) => Ok(Some(Request::Attrs(node))),
        None => Ok(None),
    }
}

/// A node's number and a name, from text that has exactly these two words.
fn node_and_name(alloc: Global, rest: &[char]) -> Result<Option<(u64, String)>, AllocError>
    ensures { IfOk result (λ words. option_map (λ p. (p.0, string_bytes p.1)) words
        ≡ spec.number_and_word_in rest.now) }
{
    let Some((node, name)) = two_words(alloc, rest)? else {
        return Ok(None);
    };
    match word_of(node.as_bytes()) {
        Some(node) => Ok(Some((node, name))),
        None => Ok(None),
    }
}

fn unset_request(alloc: Global, rest: &[char]) -> Result<Option<Request>, AllocError>
    ensures { IfOk result (λ request. option_map request_of request ≡ spec.unset_in rest.now) }
{
    match node_and_name(alloc, rest)? {
        Some((node, name)) => Ok(Some(Request::Write(unset_op(node, name.as_str())))),
        None => Ok(None),
    }
}

fn get_request(alloc: Global, rest: &[char]) -> Result<Option<Request>, AllocError>
    ensures { IfOk result (λ request. option_map request_of request ≡ spec.get_in rest.now) }
{
    match node_and_name(alloc, rest)? {
        Some((node, name)) => Ok(Some(Request::Get(node, Name::new(name.as_str())))),
        None => Ok(None),
    }
}

fn mkindex_request(alloc: Global, rest: &[char]) -> Result<Option<Request>, AllocError>
    ensures { IfOk result (λ request. option_map request_of request ≡ spec.mkindex_in rest.now) }
{
    let Some((name, kind)) = two_words(alloc, rest)? else {
        return Ok(None);
    };
    match kind_of(kind.as_str()) {
        Some(kind) => Ok(Some(Request::Write(mkindex_op(name.as_str(), kind)))),
        None => Ok(None),
    }
}

fn rmindex_request(alloc: Global, rest: &[char]) -> Result<Option<Request>, AllocError>
    ensures { IfOk result (λ request. option_map request_of request ≡ spec.rmindex_in rest.now) }
{
    match one_word(alloc, rest)? {
        Some(name) => Ok(Some(Request::Write(rmindex_op(name.as_str())))),
        None => Ok(None),
    }
}

fn page_request(alloc: Global, rest: &[char]) -> Result<Option<Request>, AllocError>
    ensures { IfOk result (λ request. option_map request_of request ≡ spec.page_in rest.now) }
{
    match page_asked(alloc, rest)? {
        Some((paging, text)) => Ok(Some(Request::Page(paging, text))),
        None => Ok(None),
    }
}

/// What a command and the text after it request.
fn command_request(
    alloc: Global,
    command: Command,
    rest: &[char],
) -> Result<Option<Request>, AllocError>
    ensures { IfOk result (λ request. option_map request_of request
        ≡ spec.command_in command rest.now) }
{
    match command {
        Command::New => Ok(bare(Request::Write(Ok(Op::New)), rest)),
        Command::Drop => drop_request(alloc, rest),
        Command::Set => set_request(alloc, rest),
        Command::Unset => unset_request(alloc, rest),
        Command::MkIndex => mkindex_request(alloc, rest),
        Command::RmIndex => rmindex_request(alloc, rest),
        Command::Query => Ok(Some(Request::Query(text_of(alloc, skip(rest))?))),
        Command::Page => page_request(alloc, rest),
        Command::Explain => Ok(Some(Request::Explain(text_of(alloc, skip(rest))?))),
        Command::Get => get_request(alloc, rest),
        Command::Attrs => attrs_request(alloc, rest),
        Command::Indices => Ok(bare(Request::Indices, rest)),
        Command::Pin => Ok(bare(Request::Pin, rest)),
        Command::Unpin => Ok(bare(Request::Unpin, rest)),
        Command::Live => Ok(Some(Request::Live(text_of(alloc, skip(rest))?))),
        Command::Refresh => Ok(bare(Request::Refresh, rest)),
        Command::Begin => Ok(bare(Request::Begin, rest)),
        Command::Commit => Ok(bare(Request::Commit, rest)),
        Command::Abort => Ok(bare(Request::Abort, rest)),
    }
}

/// What a line with a command requests. The line is given from its first word onward.
fn command_of(alloc: Global, line: &[char]) -> Result<Request, AllocError>
    ensures { IfOk result (λ request. request_of request ≡ spec.command_of line.now) }
{
    let (word, rest) = split_word(line);
    let word = text_of(alloc, word)?;
    let Some(command) = command_named(word.as_str()) else {
        return Ok(Request::Malformed);
    };
    match command_request(alloc, command, rest)? {
        Some(request) => Ok(request),
        None => Ok(Request::Malformed),
    }
}

/// Whether the line consists of only spaces and tabs.
fn is_blank_line(line: &[u8]) -> bool
    ensures { result ≡ list_all is_blank line.now }
{
    line.iter().all(|c| *c == b' ' || *c == b'\t')
}

fn is_comment(line: &[u8]) -> bool
    ensures { result ≡ spec.is_comment line.now }
{
    match line.first() {
        Some(c) => *c == b'#',
        None => false,
    }
}

/// The bytes as text, or `None` if they aren't valid UTF-8.
fn utf8(bytes: &[u8]) -> Option<&str>
    ensures { option_map (λ s. s.now) result ≡ spec.utf8 bytes.now }
{
    match str::from_utf8(bytes) {
        Ok(text) => Some(text),
        Err(_) => None,
    }
}

/// The characters of a text.
fn characters(alloc: Global, text: &str) -> Result<Vec<char>, AllocError>
    ensures { IfOk result (λ cs. cs.items ≡ chars text.now) }
{
    text.chars().collect(alloc)
}

/// The line without the CR at its end, if there is one. At most one CR is removed.
fn without_cr(line: &[u8]) -> &[u8]
    ensures { result.now ≡ strip_carriage_return line.now }
{
    match line.split_last() {
        Some((c, front)) if *c == b'\r' => front,
        _ => line,
    }
}

/// What a line requests. The line is given without its LF.
pub fn read_line(alloc: Global, line: &[u8]) -> Result<Request, AllocError>
    ensures { IfOk result (λ request. request_of request ≡ spec.asked line.now) }
{
    let line = without_cr(line);
    let Some(text) = utf8(line) else {
        return Ok(Request::Malformed);
    };
    if is_blank_line(line) || is_comment(line) {
        return Ok(Request::Silent);
    }
    let text = characters(alloc, text)?;
    command_of(alloc, skip(text.as_slice()))
}
