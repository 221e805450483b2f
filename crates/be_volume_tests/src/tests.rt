//! Worked examples, tested through public calls. Most are lines `REQUEST => REPLY` in the script
//! language, with `;` between the operations of a list.

use be_query::parse;
use be_script_language::{Reply, Request, read_line};
use be_test_tools::{
    Answers, EQUAL_VALUES, EXAMPLES, LISTS, check_lines, done_lines, list_of, reply_lines,
};
use be_value::{Kind, Name, Refusal};
use be_volume::{Op, Volume};
use be_volume_state::{Place, WholeVolume, next_list, whole_volume};
use std::alloc::Global;
use std::test::Fail;

/// Applies a list, after checking whether it may be applied. Returns its outcomes.
fn write(alloc: Global, volume: &mut Volume, ops: &[Op]) -> Result<String, Refusal> {
    if ops.is_empty() || ops.len() > 64 || volume.next() > u64::MAX - 64 {
        return Err(Refusal::BadLimits);
    }
    let dones = volume.apply(ops)?;
    Ok(done_lines(alloc, dones.as_slice())?)
}

/// The reply to a line that only reads.
fn read(alloc: Global, volume: &Volume, request: Request) -> Result<Reply, Refusal> {
    match request {
        Request::Query(text) => Ok(Reply::Nodes(volume.query(&parse(alloc, text.as_str())?)?)),
        Request::Get(node, name) => Ok(Reply::Value(volume.get(node, &name?))),
        Request::Attrs(node) => Ok(Reply::Attributes(volume.attrs(node)?)),
        Request::Indices => Ok(Reply::Kinds(volume.indices()?)),
        Request::Malformed => Ok(Reply::BadLine),
        _ => Ok(Reply::Silent),
    }
}

/// The reply to a request.
fn answer(alloc: Global, volume: &mut Volume, request: &str) -> Result<String, Refusal> {
    if request.contains(';') {
        return write(alloc, volume, &list_of(alloc, request)?);
    }
    match read_line(alloc, request.as_bytes())? {
        Request::Write(op) => write(alloc, volume, &[op?]),
        asked => Ok(reply_lines(alloc, &read(alloc, volume, asked)?)?),
    }
}

/// A volume that replies to requests.
#[derive(Drop)]
struct Plain {
    volume: Volume,
}

/// The lines of the reply to a request, or of its error. The only error returned as such is
/// OutOfMemory.
fn lines_of(alloc: Global, volume: &mut Volume, request: &str) -> Result<String, Refusal> {
    match answer(alloc, volume, request) {
        Err(Refusal::OutOfMemory) => Err(Refusal::OutOfMemory),
        Err(refusal) => Ok(reply_lines(alloc, &Reply::Refused(refusal))?),
        reply => reply,
    }
}

impl Answers for Plain {
    fn reply(&mut self, alloc: Global, request: &str) -> Result<String, Refusal> {
        lines_of(alloc, &mut self.volume, request)
    }
}

/// Writes the next list of the operations that rebuild a volume. Returns false if no list is left.
fn write_next(
    alloc: Global,
    whole: &mut WholeVolume<'_>,
    place: &mut Place,
    again: &mut Volume,
) -> Result<bool, Refusal> {
    let Some(ops) = next_list(whole, place)? else {
        return Ok(false);
    };
    let _outcomes = write(alloc, again, ops.as_slice())?;
    Ok(true)
}

/// The volume that this volume's lists rebuild from an empty one.
fn made_of(alloc: Global, volume: &Volume) -> Result<Volume, Refusal> {
    let mut again = Volume::new(alloc);
    let mut whole = whole_volume(volume);
    let mut place = Place::new(alloc);
    for _ in 0..u64::MAX {
        if !write_next(alloc, &mut whole, &mut place, &mut again)? {
            return Ok(again);
        }
    }
    Ok(again)
}

/// A volume that is rebuilt before each reply.
#[derive(Drop)]
struct MadeAgain {
    volume: Volume,
}

impl Answers for MadeAgain {
    fn reply(&mut self, alloc: Global, request: &str) -> Result<String, Refusal> {
        self.volume = made_of(alloc, &self.volume)?;
        lines_of(alloc, &mut self.volume, request)
    }
}

/// Runs requests, which must get the given replies. Returns the volume after them.
fn runs(alloc: Global, volume: Volume, lines: &str) -> Result<Volume, Fail> {
    let mut plain = Plain { volume };
    check_lines(alloc, &mut plain, lines)?;
    Ok(plain.volume)
}

/// Like `runs`, beginning with an empty volume.
fn after(alloc: Global, lines: &str) -> Result<Volume, Fail> {
    runs(alloc, Volume::new(alloc), lines)
}

#[test]
fn examples(rt: HostRuntime) -> Result<(), Fail> {
    for lines in EXAMPLES {
        let _volume = after(rt.alloc(), lines)?;
    }
    let _volume = after(rt.alloc(), LISTS)?;
    Ok(())
}

/// Runs these requests, and rebuilds the volume before each of them.
fn runs_made_again(alloc: Global, lines: &str) -> Result<(), Fail> {
    let mut made = MadeAgain {
        volume: Volume::new(alloc),
    };
    check_lines(alloc, &mut made, lines)
}

/// A rebuilt volume gives the same replies, even if it has attributes that are in no index, and
/// dropped nodes.
#[test]
fn made_again(rt: HostRuntime) -> Result<(), Fail> {
    for lines in EXAMPLES {
        runs_made_again(rt.alloc(), lines)?;
    }
    runs_made_again(rt.alloc(), LISTS)
}

/// A copy of the volume. If memory runs out, it is copied again.
fn copy_of(volume: &Volume) -> Result<Volume, Refusal> {
    match volume.copy() {
        Err(Refusal::OutOfMemory) => volume.copy(),
        copy => copy,
    }
}

/// Changing a copy leaves the original unchanged.
#[test]
fn volume_copy(rt: HostRuntime) -> Result<(), Fail> {
    let volume = after(rt.alloc(), EQUAL_VALUES)?;
    let lines = "query k==x / drop 1 / query k==x => nodes 1 3 / ok / nodes 3";
    let _copy = runs(rt.alloc(), copy_of(&volume)?, lines)?;
    let _volume = runs(rt.alloc(), volume, "query k==x => nodes 1 3")?;
    Ok(())
}

/// Whether the next key, at these bytes or after them, is `key`, or whether there is no next key if
/// `key` is empty.
fn is_next(volume: &Volume, index: &str, from: &[u8], after: bool, key: &[u8]) -> bool {
    let Ok(name) = Name::new(index) else {
        return false;
    };
    match volume.next_key(&name, from, after) {
        Some(next) => next.as_slice() == key,
        None => key.is_empty(),
    }
}

fn has_key(volume: &Volume, index: &str, key: &[u8]) -> bool {
    match Name::new(index) {
        Ok(name) => volume.has_key(&name, key),
        Err(_) => false,
    }
}

fn kind_of(volume: &Volume, index: &str) -> Option<Kind> {
    volume.kind_of(&Name::new(index).ok()?)
}

/// The key of the string x and node 1.
const FIRST: [u8; 10] = [0x78, 0, 0, 0, 0, 0, 0, 0, 0, 1];

/// The key of the string x and node 3.
const LAST: [u8; 10] = [0x78, 0, 0, 0, 0, 0, 0, 0, 0, 3];

/// Whether the next keys are right, and none follows the last.
fn goes_on(volume: &Volume) -> bool {
    is_next(volume, "k", &FIRST, true, &LAST)
        && is_next(volume, "k", &LAST, true, &[])
        && is_next(volume, "k", &LAST, false, &LAST)
        && is_next(volume, "q", &LAST, false, &[])
}

/// Whether the volume has the right keys and indices.
fn knows(volume: &Volume) -> bool {
    has_key(volume, "k", &LAST)
        && !has_key(volume, "k", &[0x78])
        && matches!(kind_of(volume, "k"), Some(Kind::Cstr))
        && kind_of(volume, "q").is_none()
}

#[test]
fn plan_source(rt: HostRuntime) -> Result<(), Fail> {
    let volume = after(rt.alloc(), EQUAL_VALUES)?;
    assert!(rt; goes_on(&volume));
    assert!(rt; knows(&volume));
    Ok(())
}

/// The text repeated 300 times. If memory runs out, it is built again.
fn longer_than_keys(alloc: Global, text: &str) -> Result<String, Refusal> {
    match text.repeat(alloc, 300) {
        Err(_) => Ok(text.repeat(alloc, 300)?),
        Ok(text) => Ok(text),
    }
}

/// Whether bytes below all keys come before the first key, bytes above all keys come after the last
/// key, and neither of them is a key.
fn lie_between(volume: &Volume, below: &[u8], above: &[u8]) -> bool {
    is_next(volume, "k", below, false, &FIRST)
        && is_next(volume, "k", above, false, &[])
        && !has_key(volume, "k", below)
}

/// Bytes that are longer than any key fall between keys.
#[test]
fn long_bytes_are_no_key(rt: HostRuntime) -> Result<(), Fail> {
    let below = longer_than_keys(rt.alloc(), "\0")?;
    let above = longer_than_keys(rt.alloc(), "y")?;
    let volume = after(rt.alloc(), EQUAL_VALUES)?;
    assert!(rt; lie_between(&volume, below.as_bytes(), above.as_bytes()));
    Ok(())
}

/// A line with this number in it.
fn numbered(alloc: Global, before: &str, i: u64, after: &str) -> Result<String, Fail> {
    match format!(in alloc; "{before}{i}{after}") {
        Err(_) => Ok(format!(in alloc; "{before}{i}{after}")?),
        Ok(line) => Ok(line),
    }
}

/// Runs a number of requests, each of which contains its number, counting from 0.
fn runs_numbered(
    alloc: Global,
    volume: Volume,
    before: &str,
    count: u64,
    after: &str,
) -> Result<Volume, Fail> {
    let mut volume = volume;
    for i in 0..count {
        volume = runs(alloc, volume, numbered(alloc, before, i, after)?.as_str())?;
    }
    Ok(volume)
}

/// The maximum number of indices, and of attributes of a node.
#[test]
fn refusals(rt: HostRuntime) -> Result<(), Fail> {
    let volume = after(rt.alloc(), "new / mkindex r CSTR => node 1 / ok")?;
    let volume = runs_numbered(rt.alloc(), volume, "mkindex i", 31, " LONG => ok")?;
    let volume = runs_numbered(rt.alloc(), volume, "set 1 a", 64, " LONG 1 => ok")?;
    let lines =
        "mkindex new LONG / mkindex new RAWT => refused 7 TooManyIndices / refused 7 TooManyIndices
mkindex r RAWT => refused 5 IndexExists
set 1 new LONG 1 / set 1 a0 LONG 2 => refused 4 TooManyAttrs / ok";
    let _volume = runs(rt.alloc(), volume, lines)?;
    Ok(())
}
