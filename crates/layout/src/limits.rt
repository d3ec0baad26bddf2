// The limits, each named once, of the crates above too. The definitions have them in specs/Limits.antt.

// An image has 3 to 65,536 blocks.
pub const MIN_BLOCKS: usize = 3;

pub const MAX_BLOCKS: usize = 65536;

// A volume of at most so many blocks has marks of that size: clearing more would cost it more than all else. The check knows both sizes, what changes an
// image the second alone.
pub const TINY_BLOCKS: usize = 512;

pub const SMALL_BLOCKS: usize = 4096;

// A directory has 1 to 64 blocks.
pub const MAX_DIRECTORY: u32 = 64;

// With four slots in a block.
pub const MAX_SLOTS: usize = 256;

// At most 8 levels below the root.
pub const MAX_LEVELS: usize = 8;

// A name has 1 to 80 bytes, and may fill its field.
pub const MAX_NAME: usize = 80;

pub const NAME_FIELD: usize = 80;

// The header's UUID has 16 bytes, and the volume name behind it 128.
pub const LABELS: usize = 144;

// One write takes at most 4,096 bytes of data.
pub const MAX_DATA: usize = 4096;

// The attributes of a file have 1 to 8 blocks, if there are any.
pub const MAX_ATTRIBUTES: u32 = 8;

// A journal has 5 to 67,108,864 bytes.
pub const MIN_JOURNAL: usize = 5;

pub const MAX_JOURNAL: usize = 67108864;
