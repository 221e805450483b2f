//! The hooks that a race calls around each line of its scripts.
//!
//! A gate reports to a test which line each script has reached. It can also hold a script back, so
//! that the test can see the scripts run at the same time. Outside tests, a race uses the open
//! gate.
ghost use Rattle.std.specs.Prelude.{ℕ};
ghost use Rattle.be_script_runner.specs.Gates.{IsNext};

/// A race calls its gate before and after each line, on the thread that runs the line. The gate may
/// keep that thread waiting. Lines are numbered from 1; blank lines and comments count. The text
/// after the last LF is a line only if it isn't empty.
///
/// The two ghosts say which line of which pass has begun and which has ended. A gate needn't define
/// them. Code that works with an arbitrary gate learns them only from its own calls, so a clause
/// about them says which calls the code made.
pub trait Gate {
    /// This gate was called before the pass ran this line.
    ghost begun: { Self → ℕ → ℕ → Type 0 } = { λ _ _ _. Unit {0} };

    /// This gate was called after the pass ran this line.
    ghost ended: { Self → ℕ → ℕ → Type 0 } = { λ _ _ _. Unit {0} };

    /// The pass is about to run this line.
    fn before(&self, pass: u64, line: u64)
        requires { IsNext (ended self.now pass) line }
        ensures { begun self.now pass line };

    /// The pass has run this line.
    fn after(&self, pass: u64, line: u64)
        requires { begun self.now pass line }
        ensures { ended self.now pass line };
}

/// A gate that never waits.
#[derive(Clone, Copy)]
pub struct OpenGate;

impl Gate for OpenGate {
    fn before(&self, _pass: u64, _line: u64) {}

    fn after(&self, _pass: u64, _line: u64) {}
}
