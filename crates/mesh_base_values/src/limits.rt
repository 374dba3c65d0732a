// How large a thing may be. What passes one of these is refused.

/// Bytes of a model file, of the file that declares the sources, or of a query that is given as a word.
pub const LARGEST_FILE: u64 = 1_048_576;

/// Bytes of a seed's file.
pub const LARGEST_SEED: u64 = 4_194_304;

/// Bytes of a file that a source is loaded from.
pub const LARGEST_SOURCE: u64 = 16_777_216;

/// Bytes of a script of commands.
pub const LARGEST_SCRIPT: u64 = 1_048_576;

/// Bytes of an identifier.
pub const LONGEST_NAME: u64 = 128;

/// The value of a number in a query.
pub const LARGEST_NUMBER: u64 = 9_223_372_036_854_775_807;

/// How deep a token may stand: each parenthesis, CASE, NOT and unary minus that is still open at it counts one.
pub const DEEPEST_NESTING: u64 = 64;

/// Nodes of one expression.
pub const LARGEST_EXPRESSION: u64 = 4_096;

/// Columns of a model, a seed or a source, once `*` is expanded.
pub const MOST_COLUMNS: u64 = 1_024;

/// Models of a project.
pub const MOST_MODELS: u64 = 4_096;

/// Units of one model's schedule.
pub const MOST_INTERVALS: u64 = 200_000;

/// Units that an incremental model looks back.
pub const LONGEST_LOOKBACK: u32 = 366;

/// Seconds since 1970-01-01T00:00:00 UTC: the least moment.
pub const FIRST_MOMENT: i64 = 0;

/// Seconds since 1970-01-01T00:00:00 UTC: the greatest moment, the last second of the year 9999.
pub const LAST_MOMENT: i64 = 253_402_300_799;

/// Days since 1970-01-01: the least date, 0001-01-01.
pub const FIRST_DATE: i32 = -719_162;

/// Days since 1970-01-01: the greatest date, 9999-12-31.
pub const LAST_DATE: i32 = 2_932_896;

/// The least number of workers.
pub const FEWEST_WORKERS: u32 = 1;

/// The greatest number of workers.
pub const MOST_WORKERS: u32 = 64;

/// Seconds that an environment other than production and a snapshot are kept after a plan.
pub const LIFETIME: i64 = 604_800;

/// Units that are computed side by side before their rows are written.
pub const LARGEST_WAVE: u32 = 256;

/// Bytes of an environment's name.
pub const LONGEST_ENVIRONMENT_NAME: u64 = 64;
