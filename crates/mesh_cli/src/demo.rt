//! The demonstration: the shop project with many orders, in memory. Its contract: what `demo` prints is what the
//! commands have to say one after another over these files, from the empty world, however many workers there are.

mod demonstration;
mod lines;
mod play;
mod shop;

pub use demonstration::{DemoFault, demo};
