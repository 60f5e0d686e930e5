// A store that wasn't opened.
use node_records::OpenError;
use outside_traits::Disk;

/// A store that wasn't opened: why, and its disks.
#[derive(Drop)]
pub struct StoreFault<J: Disk, P: Disk> {
    pub fault: OpenError,
    pub journal: J,
    pub pages: P,
}
