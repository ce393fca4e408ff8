//! What `read` refuses, and why.
use varint::number::ReadError;
use varint::read::read;

/// Numbers that end, each with one thing wrong.
const MALFORMED: [&[u8]; 3] = [
    // a last byte that adds nothing
    &[0x80, 0x00],
    // six bytes
    &[0x80, 0x80, 0x80, 0x80, 0x80, 0x01],
    // more than 32 bits
    &[0xFF, 0xFF, 0xFF, 0xFF, 0x10],
];

#[test]
fn padded_long_and_large_numbers_are_malformed(rt: HostRuntime) {
    for bytes in MALFORMED {
        assert_eq!(rt; read(bytes, 0), Err(ReadError::Malformed));
    }
}

#[test]
fn strings_without_a_last_byte_end_early(rt: HostRuntime) {
    let early = Err(ReadError::EndsEarly);
    assert_eq!(rt; read(&[], 0), early, "empty");
    assert_eq!(rt; read(&[0x05], 2), early, "a place past the end");
    assert_eq!(rt; read(&[0x80; 6], 0), early, "six bytes");
    assert_eq!(rt; read(&[0x80; 300], 0), early, "three hundred bytes");
}
