//! How many bytes the numbers of a message between members take. A kind takes 1, a view 4, an op, a commit number and a
//! nonce 8 each, and how many entries a log has takes 4. What follows the numbers, an entry or a log, isn't counted.

/// Kind, view, op and commit number; an entry follows.
pub const PREPARE: u64 = 1 + 4 + 8 + 8;
/// Kind, view and op.
pub const PREPARE_OK: u64 = 1 + 4 + 8;
/// Kind, view and commit number.
pub const COMMIT: u64 = 1 + 4 + 8;
/// Kind and view.
pub const START_VIEW_CHANGE: u64 = 1 + 4;
/// Kind, view, the last normal view, commit number and how many entries follow.
pub const DO_VIEW_CHANGE: u64 = 1 + 4 + 4 + 8 + 4;
/// Kind, view, the op before the entries, commit number and how many entries follow.
pub const START_VIEW: u64 = 1 + 4 + 8 + 8 + 4;
/// Kind, nonce and promise, which is a view.
pub const RECOVERY: u64 = 1 + 8 + 4;
/// Kind, view, nonce and whether a log is told.
pub const RECOVERY_RESPONSE: u64 = 1 + 4 + 8 + 1;
/// The commit number of a log that is told, and how many entries follow.
pub const FILLED: u64 = 8 + 4;
/// Kind, view and op.
pub const GET_STATE: u64 = 1 + 4 + 8;
/// Kind, view, the op before the entries, commit number and how many entries follow.
pub const NEW_STATE: u64 = 1 + 4 + 8 + 8 + 4;
/// Kind, view and op.
pub const FETCH: u64 = 1 + 4 + 8;
/// Kind, view, the op before the entries and how many entries follow.
pub const SUPPLY: u64 = 1 + 4 + 8 + 4;
