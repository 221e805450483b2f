//! The file's four tables, as `sqlite_schema` lists them.
ghost use Rattle.std.specs.Prelude.{◌≡◌, IfOk, IsTrue};
ghost use Rattle.sqlite_store.specs.Catalog.{wanted_of};
ghost use Rattle.sqlite_store.specs.Unopened.{AreUsable, image, state_of, wanted_by};
ghost use Rattle.sqlite_wal.specs.Files.{seen_image};
ghost use Rattle.be_kept.specs.Files.{page_size, table_of, tables};

use sqlite_disk::{Disk, Files};
use sqlite_pager::{Options, Pager};
use sqlite_store::Unopened;
use sqlite_trees::schema::Object;
use sqlite_trees::store::Shape;
use sqlite_value::keys::Order;
use sqlite_wal::PageSize;
use std::alloc::{AllocFailed, Global};

/// The numbers of the trees that are used.
pub(crate) const ENTRY: u32 = 2;

/// Up to so many pages of the file are in memory, and so many changed ones, 4 KiB each.
const CACHED_PAGES: usize = 256;

const CHANGED_PAGES: usize = 2000;

/// Once the WAL has so many pages, it is copied into the database, and reused from its start.
const WAL_PAGES: usize = 120;

const ABOUT_SQL: &str = "CREATE TABLE about (what TEXT PRIMARY KEY, number INTEGER NOT NULL, \
    checksum INTEGER) WITHOUT ROWID";

const STATE_SQL: &str = "CREATE TABLE state (place INTEGER PRIMARY KEY, batch BLOB NOT NULL, \
    checksum INTEGER)";

const ENTRY_SQL: &str = "CREATE TABLE entry (number INTEGER PRIMARY KEY, pass INTEGER NOT NULL, \
    batch BLOB NOT NULL, checksum INTEGER)";

const TOKEN_SQL: &str = "CREATE TABLE token (number INTEGER PRIMARY KEY, token TEXT NOT NULL, \
    nodes BLOB NOT NULL, checksum INTEGER)";

/// Returns a table with this name, which this text creates.
fn table<'a>(shape: Shape, name: &'a str, sql: &'a str) -> Object<'a>
    ensures { wanted_of result ≡ table_of shape name.now sql.now }
{
    Object {
        shape,
        kind: "table",
        name,
        table: name,
        reals: 0,
        sql: Some(sql),
    }
}

/// Returns the two files with the tables that they must have. Nothing has been read yet.
///
/// # Errors
/// Memory ran out; the files are returned.
pub fn unopened<D: Disk>(alloc: Global, files: Files<D>, seed: u64) -> Result<Unopened<D>, Files<D>>
    requires wal { IsTrue (D.Disk.is_usable files.log) }
    requires database { IsTrue (D.Disk.is_usable files.db) }
    ensures usable { IfOk result AreUsable }
    ensures files { IfOk result (λ it. image it ≡ seen_image D.Disk files.log files.db) }
    ensures size { IfOk result (λ it. (state_of it).page_size ≡ page_size) }
    ensures tables { IfOk result (λ it. wanted_by it ≡ tables) }
{
    let size = PageSize::new(4096).unwrap();
    let options = Options {
        cache_pages: CACHED_PAGES,
        spill_pages: CHANGED_PAGES,
        checkpoint_frames: WAL_PAGES,
        seed,
    };
    let pager = match Pager::new(alloc, files, size, options) {
        Ok(pager) => pager,
        Err(AllocFailed { value }) => return Err(value),
    };
    let schema = [
        table(Shape::Index(Order::PLAIN), "about", ABOUT_SQL),
        table(Shape::Table, "state", STATE_SQL),
        table(Shape::Table, "entry", ENTRY_SQL),
        table(Shape::Table, "token", TOKEN_SQL),
    ];
    match Unopened::new(alloc, pager, &schema) {
        Ok(it) => Ok(it),
        Err(AllocFailed { value }) => Err(value.close()),
    }
}
