//! What refuses commands that no line spells, over two rows of `high a:u3 b:i4`; and laws.
use bit_table_commands::{Command, Values, cutting_off_changes_nothing};
use bit_table_layout::image::loads_take_images;
use bit_table_layout::{Cause, Layout};
use bit_table_script::image::images_tell_numbers;
use std::test::Fail;

#[test]
fn refuses_values_that_are_not_one_a_field(rt: HostRuntime) -> Result<(), Fail> {
    let layout = Layout::parse(rt.alloc(), b"high a:u3 b:i4")?;
    let one_value = Command::Insert {
        place: 9,
        values: Values::new(Vec::from_slice(rt.alloc(), &[99])?),
    };
    assert!(rt; one_value.cause(&layout, 2, false) == Some(Cause::Form));
    for field in [None, Some(2), Some(usize::MAX)] {
        let change = Command::Set {
            row: 9,
            field,
            value: 99,
        };
        assert!(rt;
            change.cause(&layout, 2, false) == Some(Cause::Field),
            "{field:?}"
        );
    }
    Ok(())
}

// The laws are calls that do nothing.
#[test]
fn laws_return() {
    images_tell_numbers();
    loads_take_images();
    cutting_off_changes_nothing();
}
