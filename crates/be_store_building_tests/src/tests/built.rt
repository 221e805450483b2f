//! A store that was built, with its only pass.
ghost use Rattle.std.specs.Prelude.{◌≡◌, ◌∷◌, [], IfOk};

use be_script_language::Reply;
use be_store::{Answer, ArrayVec, Done, Kind, Name, Op, Pass, Query, Refusal, Store, Value, parse};
use be_store_building::StoreBuilder;
use be_test_tools::{list_of, reply_lines};
use be_value::word_of;
use std::alloc::Global;
use std::marker::Model;

/// A reply as a text, or why the request was refused.
type Text = Result<String, Refusal>;

/// Names, each with its value or its kind.
pub(crate) type Listed<T> = Result<Vec<(Name, T)>, Refusal>;

/// An opened store with its pass. No method has a clause, because the type's invariant says that
/// the pass is the store's.
#[derive(Drop)]
pub(crate) struct Built {
    store: Store,
    pass: Pass,
}

impl Model for Built {
    ghost use Rattle.be_store.specs.Live.{coded_opened};
    ghost use Rattle.be_store.specs.Passes.{IsPassOf};
    ghost use Rattle.be_table.specs.Place.{Opened};

    ghost Value = { Opened };

    ghost coded = { coded_opened };

    ghost view = { λ b. b.store };

    ghost invariant = { λ b. IsPassOf b.store b.pass };
}

/// The only element of a list.
fn only_of<T: Drop>(mut list: Vec<T>) -> Result<T, Refusal>
    ensures { IfOk result (λ one. list.items ≡ one ∷ []) }
{
    match list.pop() {
        Some(one) if list.is_empty() => Ok(one),
        _ => Err(Refusal::BadLimits),
    }
}

/// Opens the store that was built, which has one pass.
pub(crate) fn opened(builder: StoreBuilder, next: u64) -> Result<Built, Refusal> {
    let (store, passes) = builder.finish(next)?;
    let pass = only_of(passes)?;
    Ok(Built { store, pass })
}

fn text_of(alloc: Global, reply: &Reply) -> Text {
    Ok(reply_lines(alloc, reply)?)
}

/// The first line of a reply.
fn first_line(alloc: Global, reply: Text) -> Text {
    let reply = reply?;
    let line = reply.as_str().lines().next().unwrap_or("");
    Ok(String::from_str(alloc, line)?)
}

impl Built {
    /// Releases the pin.
    fn unpin(&mut self) {
        match self.pass.pinned() {
            Some(_) => self.store.unpin(&mut self.pass),
            None => {}
        }
    }

    /// Pins the newest version.
    pub(crate) fn pin(&mut self) {
        self.unpin();
        match self.pass.pinned() {
            Some(_) => {}
            None => {
                let _number = self.store.pin(&mut self.pass);
            }
        }
    }

    /// Writes a list. Returns `BadLimits` if it has no operations, or more than 64.
    pub(crate) fn write(&mut self, ops: &[Op]) -> Result<(u64, ArrayVec<Done, 64>), Refusal> {
        if ops.is_empty() || ops.len() > 64 {
            return Err(Refusal::BadLimits);
        }
        self.store.apply(&mut self.pass, ops)
    }

    /// The next node's number at the pin. This read and the others return `BadLimits` if the pass
    /// isn't pinned.
    pub(crate) fn next(&mut self) -> Result<u64, Refusal> {
        match self.pass.pinned() {
            Some(_) => Ok(self.store.next(&mut self.pass)),
            None => Err(Refusal::BadLimits),
        }
    }

    pub(crate) fn nodes(&mut self, alloc: Global) -> Result<Vec<u64>, Refusal> {
        match self.pass.pinned() {
            Some(_) => self.store.nodes(alloc, &mut self.pass, 0, usize::MAX),
            None => Err(Refusal::BadLimits),
        }
    }

    pub(crate) fn indices(&mut self, alloc: Global) -> Listed<Kind> {
        match self.pass.pinned() {
            Some(_) => self.store.indices(alloc, &mut self.pass),
            None => Err(Refusal::BadLimits),
        }
    }

    pub(crate) fn attrs(&mut self, alloc: Global, node: u64) -> Listed<Value> {
        match self.pass.pinned() {
            Some(_) => self.store.attrs(alloc, &mut self.pass, node),
            None => Err(Refusal::BadLimits),
        }
    }

    pub(crate) fn is_held(
        &mut self,
        alloc: Global,
        node: u64,
        name: &Name,
    ) -> Result<bool, Refusal> {
        match self.pass.pinned() {
            Some(_) => Ok(self.store.is_held(alloc, &mut self.pass, node, name)),
            None => Err(Refusal::BadLimits),
        }
    }

    pub(crate) fn query(&mut self, alloc: Global, query: &Query) -> Result<Answer, Refusal> {
        match self.pass.pinned() {
            Some(_) => self.store.query(alloc, &mut self.pass, query),
            None => Err(Refusal::BadLimits),
        }
    }

    /// How many pages are in use, and how many are free.
    pub(crate) fn pages(&mut self) -> Result<(u64, u64), Refusal> {
        let status = self.store.status(&mut self.pass)?;
        Ok((status.pages.saturating_sub(status.free), status.free))
    }

    fn pages_text(&mut self, alloc: Global) -> Text {
        let (used, free) = self.pages()?;
        Ok(format!(in alloc; "{used} used, {free} free")?)
    }

    fn next_text(&mut self, alloc: Global) -> Text {
        let next = self.next()?;
        Ok(format!(in alloc; "next {next}")?)
    }

    /// The reply to `held NODE NAME`.
    fn held_text(&mut self, alloc: Global, words: &str) -> Text {
        let (node, name) = words.split_once(" ").unwrap_or((words, ""));
        let node = word_of(node.as_bytes()).unwrap_or(0);
        let text = if self.is_held(alloc, node, &Name::new(name)?)? {
            "held"
        } else {
            "not held"
        };
        Ok(String::from_str(alloc, text)?)
    }

    fn query_text(&mut self, alloc: Global, text: &str) -> Text {
        let query = parse(alloc, text)?;
        let answer = self.query(alloc, &query)?;
        text_of(alloc, &Reply::Nodes(answer.nodes))
    }

    /// Writes a list in the script language.
    fn written_text(&mut self, alloc: Global, list: &str) -> Text {
        let ops = list_of(alloc, list)?;
        let (number, dones) = self.write(ops.as_slice())?;
        text_of(alloc, &Reply::Committed(number, dones))
    }

    /// The reply to a read at the newest version, or to a list of operations.
    fn reply(&mut self, alloc: Global, request: &str) -> Text {
        self.pin();
        let (command, words) = request.split_once(" ").unwrap_or((request, ""));
        match command {
            "next" => self.next_text(alloc),
            "pages" => self.pages_text(alloc),
            "nodes" => text_of(alloc, &Reply::Nodes(self.nodes(alloc)?)),
            "indices" => text_of(alloc, &Reply::Kinds(self.indices(alloc)?)),
            "attrs" => {
                let node = word_of(words.as_bytes()).unwrap_or(0);
                text_of(alloc, &Reply::Attributes(self.attrs(alloc, node)?))
            }
            "held" => self.held_text(alloc, words),
            "query" => self.query_text(alloc, words),
            _ => self.written_text(alloc, request),
        }
    }

    /// The same; only the first line after `head`.
    pub(crate) fn answer(&mut self, alloc: Global, request: &str) -> Text {
        match request.strip_prefix("head ") {
            Some(request) => first_line(alloc, self.reply(alloc, request)),
            None => self.reply(alloc, request),
        }
    }
}
