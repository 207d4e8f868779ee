//! The limits of a model: `vr_read` holds a model to them, and code above counts on them.
//!
//! Times, loads and distances are in units of the model's own. The definitions have the same numbers
//! (`specs/tables/Limits`), and a law holds these constants to them (`limits_as_defined`).

/// The greatest cumul, 2^36: windows, breaks and soft bounds lie in `0..=HORIZON`, and greater
/// capacities and slacks are read as it.
pub const HORIZON: i64 = 68_719_476_736;

/// The greatest entry of a matrix, fixed cost and penalty, 2^40.
pub const GREATEST_COST: i64 = 1_099_511_627_776;

/// The least entry of a matrix and value of a node, -(2^30).
pub const LEAST_VALUE: i64 = -1_073_741_824;

/// The greatest value and visit time of a node, and the greatest entry of a matrix that a dimension
/// uses, 2^30.
pub const GREATEST_VALUE: i64 = 1_073_741_824;

/// The greatest coefficient of a soft bound and of a span.
pub const GREATEST_COEFFICIENT: i64 = 10_000;

/// The greatest numerator and denominator of lambda.
pub const GREATEST_LAMBDA: i64 = 1_000;

/// The greatest number of visits that a model may let the chain of a cut have.
pub const MOST_CUT: u32 = 100;

/// For how many rounds a changed visit may be tabu at most.
pub const MOST_TENURE: u32 = 1_000;

/// How many moves or cuts may be tried, and how many solutions may be found, at most.
pub const MOST_TRIES: u64 = 1_000_000_000;

/// How many nodes a model has at most.
pub const MOST_NODES: u32 = 1_000;

/// How many vehicles a model has at most.
pub const MOST_VEHICLES: u32 = 100;

/// How many matrices a model has at most.
pub const MOST_MATRICES: u32 = 16;

/// How many dimensions a model has at most.
pub const MOST_DIMENSIONS: u32 = 4;

/// How many evaluators a dimension has at most.
pub const MOST_EVALUATORS: u32 = 8;

/// How many breaks a vehicle has at most in a dimension.
pub const MOST_BREAKS: u32 = 8;

/// How many forbidden intervals a stop has at most.
pub const MOST_FORBIDDEN: u32 = 16;

/// How many groups a model has at most.
pub const MOST_GROUPS: u32 = 1_000;

/// How many pairs a model has at most.
pub const MOST_PAIRS: u32 = 500;

/// How many bytes the name of a dimension has at most.
pub const MOST_NAME_BYTES: u32 = 64;

/// How many bytes an input has at most, a model or any other: 64 MiB. `vr_app` holds it to this.
pub const MOST_INPUT_BYTES: u64 = 67_108_864;

/// How many neighbourhoods there are.
pub const MOST_NEIGHBOURHOODS: u32 = 11;
