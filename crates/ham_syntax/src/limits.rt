//! The limits of objects, plans and runs: each stands here once, and contracts cite it by its name. A second version of
//! objects will have larger amounts and longer lanes: what depends on a version is named so.

/// The most bytes of a name.
pub const MAX_NAME: usize = 32;

/// The most relations of an object.
pub const MAX_RELATIONS: usize = 16;

/// The most columns of a relation.
pub const MAX_COLUMNS: usize = 4;

/// The most counters of an object.
pub const MAX_COUNTERS: usize = 16;

/// The most invariants of an object.
pub const MAX_INVARIANTS: usize = 32;

/// The most methods of an object.
pub const MAX_METHODS: usize = 32;

/// The most parameters of a method, and arguments of an act.
pub const MAX_PARAMS: usize = 6;

/// The most guards, and the most effects, of a method.
pub const MAX_PARTS: usize = 8;

/// The greatest amount, of an argument and of a constant. It depends on the object's version.
pub const MAX_AMOUNT: u64 = 4_294_967_295;

/// The most replicas that keep an object.
pub const MAX_REPLICAS: usize = 8;

/// The most groups of a plan: each has a method of its own.
pub const MAX_GROUPS: usize = 32;

/// The most lanes of a plan.
pub const MAX_LANES: usize = 256;

/// The most slots of a plan, and dependency counts of a call.
pub const MAX_SLOTS: usize = 256;

/// The most calls of a lane. It depends on the object's version.
pub const MAX_LANE_CALLS: usize = 65_536;

/// The most requests that a replica makes to a group. It depends on the object's version.
pub const MAX_REQUESTS: usize = 65_536;

/// The most calls of a lane, and the most requests to a group, that a tick sends to a peer.
pub const MAX_DUE: usize = 16;

/// The bytes of an object's digest.
pub const DIGEST_BYTES: usize = 32;

/// The most bytes of a frame: those of a call with all its arguments and counts.
pub const MAX_FRAME_BYTES: usize = 10 + 8 * MAX_PARAMS + 4 * MAX_SLOTS;

/// The most cuts at which frames are parted into pieces.
pub const MAX_CUTS: usize = 64;

/// As many frames as this may have been sent when an event comes, and no more.
pub const MAX_SENT_FRAMES: u32 = 3_999_999;

/// The most bytes of an object's file, and of a derivation's.
pub const MAX_OBJECT_BYTES: u64 = 1_048_576;

/// The most bytes of a schedule.
pub const MAX_SCHEDULE_BYTES: u64 = 67_108_864;

/// The most bytes of a piece of output.
pub const MAX_PIECE_BYTES: usize = 65_536;
