// Which of the two texts of a definition is meant.

/// The text of a definition as it is now, or as it was before its kind said a lookback.
#[derive(Clone, Copy)]
pub enum Form {
    /// The kind of an incremental model is its time column and its lookback.
    Current,
    /// It is its time column alone.
    Former,
}
