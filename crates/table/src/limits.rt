// How many entries each array may have, and how heavy a task may be.
pub const MAX_ACTIONS: u32 = 8;

pub const MAX_STREAMS: u32 = 32;

pub const MAX_SOURCES: u32 = 8;

pub const MAX_PIXEL_FORMATS: u32 = 8;

pub const MAX_ATTRIBUTES: u32 = 37;

pub const MAX_VALUES: u32 = 32;

// The largest weight of a task, and so the length of a full work table.
pub const MAX_WEIGHT: usize = 512;
