// Bytes to tables and back.
use fault::Fault;
use reader::walk;
use std::test::Fail;
use writer::write;

// An actuator of period 2 that starts at 5; one module with one mode of period 4; one task, its output written at offset 4.
const SMALL: [u8; 32] = [
    67, 79, 0, 2, 2, 0, 0, 0, 5, 77, 85, 255, 0, 77, 79, 0, 0, 4, 84, 65, 0, 0, 1, 255, 0, 87, 82,
    0, 0, 0, 0, 4,
];

#[test]
fn the_small_station_is_written_as_it_was_read(rt: HostRuntime) -> Result<(), Fail> {
    let tables = walk(&SMALL)?;
    assert_eq!(rt; tables.count(), 5);
    let bytes = write(&tables);
    assert!(rt; bytes.as_slice() == &SMALL[0..32]);
    Ok(())
}

#[test]
fn no_bytes_are_no_records(rt: HostRuntime) -> Result<(), Fail> {
    assert_eq!(rt; walk(&[])?.count(), 0);
    Ok(())
}

#[test]
fn a_byte_short_is_a_cut_record(rt: HostRuntime) {
    assert_eq!(rt;
        walk(&SMALL[0..31]).err(),
        Some(Fault::CutRecord { record: 4 })
    );
}

#[test]
fn an_earlier_kind_is_out_of_order(rt: HostRuntime) {
    assert_eq!(rt;
        walk(&[77, 85, 255, 0, 67, 79, 0, 2, 2, 0, 0, 0, 5]).err(),
        Some(Fault::OutOfOrder { record: 1 })
    );
}

#[test]
fn letters_in_lower_case_are_no_mark(rt: HostRuntime) {
    assert_eq!(rt;
        walk(b"mu\xff\x00").err(),
        Some(Fault::UnknownMark { record: 0 })
    );
}
