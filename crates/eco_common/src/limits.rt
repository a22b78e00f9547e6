//! Limits of inputs and of what is built from them.

/// The longest DEF text, in bytes.
pub const MAX_DEF_BYTES: u32 = 134_217_728;

/// The longest LEF text, in bytes.
pub const MAX_LEF_BYTES: u32 = 67_108_864;

/// The longest functions file, in bytes.
pub const MAX_FUNCTIONS_BYTES: u32 = 16_777_216;

/// The longest desk file, in bytes.
pub const MAX_DESK_BYTES: u32 = 1_048_576;

/// The longest order or commit file, in bytes, and the longest body of a request.
pub const MAX_ORDER_BYTES: u32 = 131_072;

/// The longest name of LEF and DEF, in bytes.
pub const MAX_NAME_BYTES: usize = 1_024;

/// The longest length, in millionths of a micron.
pub const MAX_MILLIONTHS: u64 = 10_000_000_000;

/// The most database units in a micron: DEF `UNITS DISTANCE MICRONS`.
pub const MAX_UNITS: u32 = 1_000_000;

/// The least and the greatest coordinate of a component's centre, in halves of a database unit.
pub const MIN_CENTRE: i64 = -4_294_967_296;

pub const MAX_CENTRE: i64 = 14_294_967_294;

/// The most components of a DEF.
pub const MAX_COMPS: usize = 1_000_000;

/// The most top pins of a DEF.
pub const MAX_TOP_PINS: usize = 1_000_000;

/// The most net statements of a DEF, those of SPECIALNETS and NETS together.
pub const MAX_NETS: usize = 1_000_000;

/// The most joints of a DEF, those of SPECIALNETS and NETS together.
pub const MAX_JOINTS: usize = 4_000_000;

/// The most masters of a LEF, and of a functions file.
pub const MAX_MASTERS: usize = 16_384;

/// The most spare components in stock.
pub const MAX_STOCK: usize = 32_768;

/// The most components of a netlist: those of a DEF, and what is inserted later.
pub const MAX_LISTED_COMPS: usize = 1_100_000;

/// The most nets of a netlist: those that a DEF states or names, and what is inserted later.
pub const MAX_LISTED_NETS: usize = 9_000_000;

/// The most inputs of a master, and of a truth table.
pub const MAX_INPUTS: usize = 6;

/// The most rows of a truth table: two to the most inputs.
pub const MAX_ROWS: u32 = 64;

/// The most outputs of a master.
pub const MAX_OUTPUTS: usize = 8;

/// The longest expression of a functions file, in bytes.
pub const MAX_EXPRESSION_BYTES: usize = 4_096;

/// How deep parentheses and `!` nest in an expression.
pub const MAX_EXPRESSION_DEPTH: u32 = 64;

/// The longest name of a new net, in bytes.
pub const MAX_NEW_NET_BYTES: usize = 255;
