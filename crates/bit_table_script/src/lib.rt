//! A table of packed rows over any storage word and any lawful order of bits, edited by the lines of a script, and the
//! run of a script from a reader to a writer.
#![tactic(auto)]

mod kept;
mod marks;
mod script_run;
mod session;
mod table;

pub use bit_addressing_memory::{
    BitIdx, BitOrder, BitRegister, HiLo, LocalBits, Lsb0, Msb0, OrderCandidate, Positions, Sweep,
    Way, mask_from_at, select_from_at, way_for,
};
pub use bit_containers_vector::BitVec;
pub use bit_slice_views::{BitSlice, BitStore, BitViewSized, Bits};
pub use bit_slice_views_mut::{BitSliceMut, BitsMut};
pub use bit_slice_words::{Steps, WordPaths, by_bits};
pub use bit_table_commands::{
    Command, ImageBytes, Items, Numbers, Reply, RowNumbers, Test, Values,
    cutting_off_changes_nothing,
};
pub use bit_table_fields::{Digits, digits_by_bits};
pub use bit_table_image as image;
pub use bit_table_layout::image::{is_image, loads_take_images};
pub use bit_table_layout::{
    BoolOp, Cause, Fault, Field, Layout, LayoutError, Letter, MAX_BITS, MAX_ROW_BITS, Rule, Words,
    is_name, is_number, is_separator, number_up_to,
};
pub use bit_table_lines::{Input, LineMachine, Output, RunError, drive};
pub use bit_table_rows::{keep_rows, move_rows};
pub use script_run::run;
pub use table::Table;
