//! From what contexts started.

use paged_memory::Image;
use sm_types::Config;
use std::collections::LinkedList;

/// From which program and with which options a context started, and the name of the port to which its ticket
/// belongs. No value of it is made: it stands in what a pass knows.
pub struct Origin {
    pub image: Image,
    pub config: Config,
    pub name: LinkedList<u64>,
}
