//! What is told of each message that a worker has drawn.
/// Told of each message that a worker has drawn, before the first attempt at it. It may wait.
pub trait Gate {
    /// Worker `worker`, which count from 1, has drawn message `message`.
    fn arrive(&self, worker: u64, message: u64);
}

/// The gate that nobody waits at.
#[derive(Clone, Copy, Drop)]
pub struct OpenGate;

impl Gate for OpenGate {
    fn arrive(&self, _worker: u64, _message: u64) {}
}
