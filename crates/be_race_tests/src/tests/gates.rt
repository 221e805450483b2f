//! A race runs a line after its first call to the gate and before its second.
use super::races::{expect, raced};
use be_script_runner::Gate;
use std::sync::atomic::AtomicU64;
use std::sync::atomic::Ordering::SeqCst;
use std::test::Fail;
use std::thread;

const LOOKED_AT: &str =
    "pass 0\nnode 1\npass 1\npin 0\nok\npin 1\njournal 1\n1 by 0 new -> node 1\nreplay ok\n";

const HELD_BACK: &str =
    "pass 0\nnode 3\npass 1\nnode 1\nnode 2\njournal 3\n1 by 1 new -> node 1\n2 by 1 new -> node \
     2\n3 by 0 new -> node 3\nreplay ok\n";

/// The progress of two passes that wait for each other.
#[derive(Drop)]
struct Stages {
    stage: AtomicU64,
    /// The number of waits that timed out.
    missed: AtomicU64,
}

impl Stages {
    fn new() -> Stages {
        Stages {
            stage: AtomicU64::new(0),
            missed: AtomicU64::new(0),
        }
    }

    fn reach(&self, stage: u64) {
        self.stage.store(stage, SeqCst);
    }

    /// Waits for this stage or a later one, for at most 100,000,000 turns.
    fn wait_for(&self, stage: u64) {
        for _ in 0..100_000_000 {
            if self.stage.load(SeqCst) >= stage {
                return;
            }
            thread::yield_now();
        }
        self.missed.fetch_add(1, SeqCst);
    }

    /// Begins a stage, and waits for the next one.
    fn begin(&self, stage: u64) {
        self.reach(stage);
        self.wait_for(stage.saturating_add(1));
    }

    fn has_missed(&self) -> bool {
        self.missed.load(SeqCst) != 0
    }
}

/// Holds pass 0 before its only line and again after it, each time until pass 1 has checked the
/// number of entries. The stages are: pass 0 is before its line; pass 1 has checked; pass 0 is
/// after its line; pass 1 has checked again.
#[derive(Drop)]
struct Around {
    stages: Stages,
}

impl Gate for Around {
    fn before(&self, pass: u64, _line: u64) {
        if pass == 0 {
            self.stages.begin(1);
        }
    }

    fn after(&self, pass: u64, line: u64) {
        match (pass, line) {
            (0, _) => self.stages.begin(3),
            (_, 1) => self.stages.wait_for(1),
            (_, 2) => self.stages.begin(2),
            (_, 5) => self.stages.reach(4),
            _ => {}
        }
    }
}

/// Holds pass 0 before its first line until pass 1 has run both its lines. Then holds pass 1 until
/// pass 0 has run that line. The stages are: pass 0 is before its first line; pass 1 has run its
/// lines; pass 0 is before its second line.
#[derive(Drop)]
struct HoldsBack {
    stages: Stages,
}

impl Gate for HoldsBack {
    fn before(&self, pass: u64, line: u64) {
        match (pass, line) {
            (0, 1) => self.stages.begin(1),
            (0, _) => self.stages.reach(3),
            (_, 1) => self.stages.wait_for(1),
            _ => {}
        }
    }

    fn after(&self, pass: u64, line: u64) {
        if pass == 1 && line == 2 {
            self.stages.begin(2);
        }
    }
}

/// While pass 0 is before its line, pass 1 sees no entry; while pass 0 is after its line, pass 1
/// sees one entry.
#[test]
fn lines_run_inside(rt: HostRuntime) -> Result<(), Fail> {
    for _ in 0..2 {
        let gate = Around {
            stages: Stages::new(),
        };
        let scripts = ["new\n", "\npin\nunpin\npin\n\n"];
        if let Some(written) = raced(&rt, rt.alloc(), &scripts, &gate)? {
            assert!(rt; !gate.stages.has_missed());
            return expect(written.as_str() == LOOKED_AT, written.as_str());
        }
    }
    Err(Fail::new("out of memory"))
}

/// A line that a gate holds back comes after the whole other script, so the race always writes this
/// text.
#[test]
fn line_held_back(rt: HostRuntime) -> Result<(), Fail> {
    for _ in 0..2 {
        let gate = HoldsBack {
            stages: Stages::new(),
        };
        if let Some(written) = raced(&rt, rt.alloc(), &["new\n\n", "new\nnew\n"], &gate)? {
            assert!(rt; !gate.stages.has_missed());
            return expect(written.as_str() == HELD_BACK, written.as_str());
        }
    }
    Err(Fail::new("out of memory"))
}
