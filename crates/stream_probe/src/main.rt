// Shows one read of a stream header from outside. Standard input: the bytes of a stream's beginning, at most 65,536; more
// is left unread. Written, numbers little-endian:
//     number (1), consumed (4), smallest and largest block (2, 2), smallest and largest frame (4, 4), rate (4),
//     channels (1), bits (1), samples (8), MD5 (16: as it is stored, first byte first)
// After a refusal all but the number are zero.
#![tactic(auto)]

use rfc9639::StreamInfo;

// The numbers of standard input and standard output.
const STDIN: i32 = 0;

const STDOUT: i32 = 1;

fn write_header(info: StreamInfo, consumed: usize) {
    io::write_all(STDOUT, &[0]);
    io::write_all(STDOUT, &consumed.to_le_bytes()[..4]);
    io::write_all(STDOUT, &info.blocks.smallest.to_le_bytes()[..2]);
    io::write_all(STDOUT, &info.blocks.largest.to_le_bytes()[..2]);
    io::write_all(STDOUT, &info.frames.smallest.to_le_bytes());
    io::write_all(STDOUT, &info.frames.largest.to_le_bytes());
    io::write_all(STDOUT, &info.rate.to_le_bytes());
    io::write_all(STDOUT, &info.channels.to_le_bytes()[..1]);
    io::write_all(STDOUT, &info.bits.to_le_bytes()[..1]);
    io::write_all(STDOUT, &info.samples.to_le_bytes());
    io::write_all(STDOUT, &stream::md5_bytes(info.md5));
}

fn write_refusal(number: u8) {
    io::write_all(STDOUT, &[number]);
    io::write_all(STDOUT, &[0; 46]);
}

fn main() {
    let mut input = [0; 65536];
    let n = io::read_full(STDIN, &mut input);
    match stream::read_stream_header(&input[..n]) {
        Ok((info, consumed)) => write_header(info, consumed),
        Err(e) => write_refusal(e.into()),
    }
}
