//! The table, whole: rows of whole numbers packed bit by bit, edited by the lines of a script; the run of a script;
//! what a command line asks for; the layer below whole is the module `containers`.
#![tactic(auto)]

pub use bit_containers as containers;
pub use bit_table_command_line::{Choice, Order, Word, choose};
pub use bit_table_script::{
    BitIdx, BitOrder, BitRegister, BitSlice, BitSliceMut, BitStore, BitVec, BitViewSized, Bits,
    BitsMut, BoolOp, Cause, Command, Digits, Fault, Field, HiLo, ImageBytes, Input, Items, Layout,
    LayoutError, Letter, LineMachine, LocalBits, Lsb0, MAX_BITS, MAX_ROW_BITS, Msb0, Numbers,
    OrderCandidate, Output, Positions, Reply, RowNumbers, Rule, RunError, Steps, Sweep, Table,
    Test, Values, Way, WordPaths, Words, by_bits, cutting_off_changes_nothing, digits_by_bits,
    drive, image, is_image, is_name, is_number, is_separator, keep_rows, loads_take_images,
    mask_from_at, move_rows, number_up_to, run, select_from_at, way_for,
};
