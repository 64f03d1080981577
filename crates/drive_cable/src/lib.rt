//! A cable that is driven by bytes (the protocol remote bitbang, as its client), and what answers them.
#![tactic(auto)]

mod calls;
mod digits;
mod drive_cable;
mod file_peer;
mod mem_peer;
mod peer;

pub use calls::send_all;
pub use drive_cable::DriveCable;
pub use file_peer::FilePeer;
pub use mem_peer::MemPeer;
pub use peer::Peer;
