//! The rack of a program: a device of each kind for each device that a board may have.
//!
//! A library may not make boxed devices for its caller, so this is a macro: the program makes them.
#![tactic(auto)]

pub use chain_sim::is_rack;
pub use dev_card::MOST_DEVICES;
pub use dev_kinds::{Flash, Plain, Regs};

/// Fills an empty `Vec<Box<dyn Device>>` with unfitted devices: a `Plain`, a `Regs` and a `Flash` for each of the 64
/// devices that a board may have, 192 in all. It leaves the function with `AllocError` if there is no memory. `is_rack`
/// says afterwards that they are a rack.
#[macro_export]
macro_rules! fill_rack {
    ($alloc:expr, $rack:ident) => {
        for _place in 0..$crate::MOST_DEVICES {
            $rack.push(Box::new($alloc, $crate::Plain::unfitted())?)?;
            $rack.push(Box::new($alloc, $crate::Regs::unfitted())?)?;
            $rack.push(Box::new($alloc, $crate::Flash::unfitted())?)?;
        }
    };
}
