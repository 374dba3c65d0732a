// What each unit passes before it is evaluated.

/// What a worker enters before each unit. A wave returns where each `enter` does.
pub trait Gate: Sync {
    /// The number of the unit counts from 0.
    fn enter(&self, unit: u32);
}

/// A gate that lets every unit pass at once.
#[derive(Clone, Copy)]
pub struct OpenGate;

impl Gate for OpenGate {
    fn enter(&self, _unit: u32) {}
}
