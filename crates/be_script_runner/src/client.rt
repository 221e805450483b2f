//! The state that a script keeps besides its server.
ghost use Rattle.std.specs.Prelude.{◌≡◌, ◌≤◌, length};
ghost use Rattle.be_script_runner.specs.Output as spec;
ghost use Rattle.be_script_runner.specs.Store.{Store};
ghost use Rattle.be_script_runner.specs.View.{session, queued_ops};

use be_store::Live;
use be_volume::Op;

/// The state that a script keeps besides its server.
#[derive(Drop)]
pub struct Client {
    /// The operations queued since `begin`, or `None` if no batch is open.
    pub batch: Option<Vec<Op>>,
    /// The query of the last `live` that was accepted.
    pub live: Option<Live>,
}

impl Client {
    /// A client with no open batch and no live query.
    pub fn new() -> Client
        ensures opening { (store : Store) → session store result ≡ spec.opening store }
        ensures few { length (queued_ops result) ≤ 64 }
    {
        Client {
            batch: None,
            live: None,
        }
    }
}
