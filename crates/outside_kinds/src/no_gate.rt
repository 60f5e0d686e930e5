//! The gate of workers that nobody tests.
use outside_traits::Gate;

/// A gate that holds nobody.
#[derive(Clone, Copy, Debug, Drop)]
pub struct NoGate;

impl Gate for NoGate {
    fn before(&self, _session: u32, _line: u32) {}

    fn after(&self, _session: u32, _line: u32) {}
}
