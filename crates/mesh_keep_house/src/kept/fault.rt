// A keeper that can't be a warehouse.

/// A keeper that can't be a warehouse: it failed, or there was not enough memory.
pub enum KeepFault<K> {
    Failed(K),
    Memory(K),
}
