use std::sync::{Mutex, Wait};
use std::thread;
use std::thread::Threads;

/// Whether so many threads can run beside this one. They are started, stand at a lock until the
/// last of them is there, and end. Where fewer can run, workers would take turns unseen.
pub(crate) fn can_run<R: Threads + Wait + Sync>(rt: &R, count: usize) -> bool {
    let gate = Mutex::new(());
    let shared = &gate;
    thread::scope(thread::scope_env(), rt, |scope| {
        let _held = shared.lock(rt);
        for _ in 0..count {
            if scope.spawn(move || pass(rt, shared)).is_err() {
                return false;
            }
        }
        true
    })
}

// Waits until the gate is open.
fn pass<R: Wait>(rt: &R, gate: &Mutex<()>) {
    let _passed = gate.lock(rt);
}
