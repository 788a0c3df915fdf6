//! How much of each thing a file, a proof, a state and a command line may have.

/// Bytes of a program's file.
pub const FILE_BYTES: usize = 1_048_576;
/// Bytes of a proof's file.
pub const PROOF_BYTES: usize = 33_554_432;
/// Bytes of a state's file.
pub const STATE_BYTES: usize = 67_108_864;
/// Procedures of a file.
pub const PROCEDURES: usize = 1_000;
/// Resources of a file.
pub const RESOURCES: usize = 64;
/// Fields of a file.
pub const FIELDS: usize = 16;
/// Parameters and declared locals of one procedure. Primed locals aren't counted.
pub const OWN_VARIABLES: usize = 256;
/// Variables of all resources together.
pub const RESOURCE_VARIABLES: usize = 256;
/// Bytes of a name or an existential.
pub const NAME_BYTES: usize = 64;
/// How deep commands, and assertions, may be nested.
pub const NESTING: usize = 64;
/// Tags of the proof of one procedure, its `procedure` line not counted.
pub const PROCEDURE_TAGS: usize = 200_000;
/// Tags of the proofs of all procedures of a file, `procedure` lines not counted.
pub const FILE_TAGS: usize = 600_000;
/// Cells of a state.
pub const STATE_CELLS: usize = 1_000_000;
/// Every location in a state's text is below this.
pub const LOCATIONS: u64 = 1 << 62;
/// Turns of a task's path.
pub const TURNS: usize = 63;
/// The most events that a run may be given.
pub const STEPS: u64 = 1 << 48;
/// The events that a run has where nothing is said.
pub const DEFAULT_STEPS: u64 = 1_000_000;
/// The most tries at one region that a run may be given.
pub const WAITS: u32 = 16_777_216;
/// The tries at one region that a run has where nothing is said.
pub const DEFAULT_WAITS: u32 = 1_000_000;
/// The most workers that may search side by side.
pub const WORKERS: u32 = 64;
/// The most procedures that the generator makes.
pub const DEMO: u32 = 1_000;
