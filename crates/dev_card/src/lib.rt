//! Descriptions of devices, their cards and boards, and the interface of a boxed device.
#![tactic(auto)]

mod boxed;
mod desc;
mod device;
pub mod laws;

pub use desc::{Desc, FlashDesc, IdCode, Kind, MOST_DEVICES, RegDesc};
pub use device::{Device, FitRefused};
