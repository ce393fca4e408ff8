//! What `write` puts into a buffer, and what `read` makes of it.
use varint::number::{NoRoom, Number};
use varint::read::read;
use varint::write::write;

/// Numbers with their bytes.
const TABLE: [(u32, &[u8]); 8] = [
    (0, &[0x00]),
    (127, &[0x7F]),
    (128, &[0x80, 0x01]),
    (300, &[0xAC, 0x02]),
    (16_383, &[0xFF, 0x7F]),
    (16_384, &[0x80, 0x80, 0x01]),
    (1_000_000, &[0xC0, 0x84, 0x3D]),
    (4_294_967_295, &[0xFF, 0xFF, 0xFF, 0xFF, 0x0F]),
];

/// What a buffer holds where nothing was written.
const OTHER: u8 = 0xAA;

/// The buffer holds the bytes from the place `at` on, and nothing else.
fn holds(buffer: &[u8], at: usize, bytes: &[u8]) -> bool {
    buffer.iter().enumerate().all(|(place, byte)| {
        let written = place.checked_sub(at).and_then(|i| bytes.get(i));
        *byte == *written.unwrap_or(&OTHER)
    })
}

/// `n` is written at the place `at` as these bytes, and read back.
fn round_trips(n: u32, bytes: &[u8], at: usize) -> bool {
    let mut buffer = [OTHER; 12];
    let length = bytes.len();
    write(n, &mut buffer, at) == Ok(length)
        && holds(&buffer, at, bytes)
        && read(&buffer, at) == Ok(Number { value: n, length })
}

#[test]
fn numbers_stand_as_in_the_table_and_are_read_back(rt: HostRuntime) {
    for (n, bytes) in TABLE {
        assert!(rt; round_trips(n, bytes, 0), "at the front");
        assert!(rt; round_trips(n, bytes, 5), "between other bytes");
    }
}

#[test]
fn no_room_leaves_the_buffer(rt: HostRuntime) {
    let mut buffer = [OTHER; 4];
    assert_eq!(rt; write(4_294_967_295, &mut buffer, 0), Err(NoRoom));
    assert_eq!(rt; write(300, &mut buffer, 3), Err(NoRoom));
    assert_eq!(rt; write(0, &mut buffer, 4), Err(NoRoom));
    assert_eq!(rt; write(0, &mut buffer, 9), Err(NoRoom));
    assert!(rt; holds(&buffer, 0, &[]));
}
