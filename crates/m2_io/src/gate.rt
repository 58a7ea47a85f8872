//! What a turn of a task passes.

/// Is told of each turn of a task, and promises nothing.
pub trait Gate: Sync {
    /// Called directly before and directly after a turn, by the worker with this number, with the number of
    /// items and statements of the stream that are finished by then.
    fn pass(&self, worker: u32, stream: u32, steps: u64);
}

/// A gate that does nothing.
#[derive(Clone, Copy)]
pub struct NoGate;

impl Gate for NoGate {
    fn pass(&self, _worker: u32, _stream: u32, _steps: u64) {}
}
