//! What checksums are.
use be_kept::entry_sum;
use std::test::Fail;

/// zlib.crc32 of the number, the pass and the length, 8 bytes each, followed by the batch.
#[test]
fn checksums_are_those_of_zlib(rt: HostRuntime) -> Result<(), Fail> {
    assert_eq!(rt; entry_sum(0, 0, b""), 0xa3c1_ca20);
    let new_node = b"BEB\x01\x01\x00\x01\0\0\0\0\0\0\0";
    assert_eq!(rt; entry_sum(1, 0, new_node), 0xe008_963a);
    assert_eq!(rt; entry_sum(7, u32::MAX, b"123456789"), 0xa0da_9071);
    assert_eq!(rt; entry_sum(256, 1, &[255; 300]), 0x0263_bb6f);
    Ok(())
}
