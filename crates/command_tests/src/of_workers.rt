//! Commands by several workers, whose turns pass a gate.
use crate::gates::{Counting, Meeting};
use crate::scenes::{Fails, Scene};
use std::sync::atomic::{AtomicU64, Ordering};
use std::test::Fail;

/// Two procedures that wait for nothing.
const ALONE: &str = "MODULE A; PROCEDURE P; END P; PROCEDURE Q; END Q; END A.";

/// Two procedures that name one another's module, before what they name.
const TWO: &str =
    "MODULE A; PROCEDURE P; BEGIN v := 1; Q END P; PROCEDURE Q; BEGIN v := 2 END Q; VAR v: INTEGER; BEGIN P; Q END A.";

#[test]
fn two_workers_are_at_work_at_once(rt: HostRuntime) -> Result<(), Fail> {
    let alloc = rt.alloc();
    for line in ["compile A --workers 2", "big 2 --workers 2"] {
        let mut scene = Scene::new(alloc, ALONE, None, "", Fails::none(alloc))?;
        let gate = Meeting::new();
        let status = scene.status(&rt, line, &gate)?;
        assert!(rt; status == 0 && gate.missed() == 0, "{line}");
        let (second, third) = gate.workers();
        assert!(rt;
            second == 1 && third == 2 || second == 2 && third == 1,
            "{line}"
        );
    }
    Ok(())
}

#[test]
fn each_turn_passes_the_gate_twice(rt: HostRuntime) -> Result<(), Fail> {
    let alloc = rt.alloc();
    let mut scene = Scene::new(alloc, TWO, None, "", Fails::none(alloc))?;
    let gate = Counting {
        most: 4,
        calls: AtomicU64::new(0),
        strangers: AtomicU64::new(0),
    };
    assert!(rt; scene.status(&rt, "compile A --workers 4", &gate)? == 0);
    let calls = gate.calls.load(Ordering::SeqCst);
    assert!(rt; calls >= 6 && calls % 2 == 0);
    assert!(rt; gate.strangers.load(Ordering::SeqCst) == 0);
    Ok(())
}
