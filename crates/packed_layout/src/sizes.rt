// The sizes, the limits and the fixed numbers of the packed form.

// What stands before a payload: its length in 4 bytes, and its kind in 2.
pub const HEADER_LEN: usize = 6;

pub const LONGEST_PAYLOAD: usize = 32768;

// The kind of a row's record.
pub const ROW: u16 = 1;

// An id or a stable id has 1 to 1,024 bytes.
pub const LONGEST_NAME: u16 = 1024;

pub const MOST_IMPORTS: u16 = 1024;

// An import record: its kind in 1 byte, and its target in 2.
pub const IMPORT_LEN: usize = 3;

// What stands for the target of an import that was not resolved.
pub const UNRESOLVED: u16 = 65535;
