// `written` on bits whose bytes were worked out by hand: it lends whole bytes alone, and never more than the output.
use super::BitWriter;

#[test]
fn lends_whole_bytes(rt: HostRuntime) {
    let mut out = [0x55; 3];
    let mut writer = BitWriter::new(&mut out);
    assert_eq!(rt; writer.written(), b"".as_slice());
    writer.write_bits(12, 0xabc);
    assert_eq!(rt; writer.written(), b"\xab".as_slice());
    writer.write_unary(3);
    assert_eq!(rt; writer.written(), b"\xab\xc1".as_slice());
    writer.write_bits(12, 0xdef);
    assert_eq!(rt; writer.written(), b"\xab\xc1\xde".as_slice());
    writer.pen.byte = usize::MAX;
    assert_eq!(rt; writer.written(), b"\xab\xc1\xde".as_slice());
}
