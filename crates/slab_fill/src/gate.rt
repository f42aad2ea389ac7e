/// What each worker passes before it begins, so that a test can see workers meet.
pub trait Gate: Sync {
    /// A worker comes, with its number from 0 on.
    fn enter(&self, worker: u32);

    /// A worker comes with its part of the output, to which nothing is written yet.
    fn enter_with(&self, worker: u32, _part: &[u8]) {
        self.enter(worker);
    }
}

/// Lets every worker pass.
#[derive(Clone, Copy, Debug)]
pub struct NoGate;

impl Gate for NoGate {
    fn enter(&self, _worker: u32) {}
}
