// What a query may read.
use mesh_base::{Inputs, Sources};

/// The models that may be named, with their columns and no rows, and the declared sources. `macros` is true for an
/// incremental model.
pub struct Known {
    pub models: Inputs,
    pub sources: Sources,
    pub macros: bool,
}

impl Drop for Known {
    fn drop(self) {
        let Known {
            models: _,
            sources: _,
            macros: _,
        } = self;
    }
}
