// Subframes through `decode`: claxon's tests of the predictors (subframe.rs) as subframes, each type, the boundaries of
// the partitions, and each refusal. A line has the bytes, the width and the size, then the place after the subframe or
// the refusal, and the samples. The samples start as 7, so zeros after a refusal were written by `decode`.
use crate::show::{Answer, At, Hex, Samples};
use reading::Place;
use subframe::decode;

fn line(rt: &HostRuntime, s: &[u8], width: u32, out: &mut [i32]) {
    let answer = decode(s, Place { byte: 0, bit: 0 }, width, out).map(At);
    let _ = println!(rt;
        "decode {} {width} {} = {},{}",
        Hex(s),
        out.len(),
        Answer(answer),
        Samples(out)
    );
}

// A channel of n samples, at most 4096.
fn run(rt: &HostRuntime, s: &[u8], width: u32, n: usize) {
    let mut out = [7i32; 4096];
    match out.get_mut(..n) {
        Some(channel) => line(rt, s, width, channel),
        None => {}
    }
}

// claxon's tests of the predictors.
pub fn predictors(rt: &HostRuntime) {
    // its verify_predict_fixed: data of a 16-bit stream, and data that overflows when not handled with care
    run(
        rt,
        b"\x16\xfd\x27\xfd\x2e\xfd\x65\x01\x0a\xbe\x48\xef\x48\x3f\x9b\x7d\x97\x62",
        16,
        16,
    );
    run(rt, b"\x14\x55\x75\x6b\x5a\x03\x04\xb8\x40", 16, 3);
    // its verify_predict_lpc: the same, and a high order of a wider stream
    run(
        rt,
        b"\x4c\xfc\xe4\xfd\xdd\xfe\xe3\xff\xe0\x00\xc7\x01\xbb\x02\x9e\xb4\xa0\x97\x38\xfd\xaf\x79\x83\xc8\
        \x53\x7d\xa8\x09\x33\xae\x72\xd7\x62\x6a\x00",
        16,
        16,
    );
    run(
        rt,
        b"\x4c\xac\x8d\xaa\x41\xa7\x87\xa0\xd4\x95\x5f\x97\x0a\x8a\xbf\xb5\x36\xed\xa8\x9b\x7e\x5e\x11\x5f\
        \x80\x83\xb8\x16\x22\xa8",
        16,
        8,
    );
    run(
        rt,
        b"\x66\x03\x40\xf6\x03\x37\x8e\x03\x93\xfd\x03\x32\x6b\x03\x96\x83\x03\x14\x6c\x03\x2d\x17\x02\xd7\
        \xa5\x02\x68\x18\x02\x42\xd0\x01\xc1\x5d\x01\x99\x84\x00\xed\x7a\x00\xd4\xfb\x00\x01\x9c\x00\x46\
        \x17\xff\xe8\x77\xff\xf1\x7f\x00\x20\xb5\x00\x2d\xf4\xe6\x2d\x1e\x87\x8e\xcf\x47\x29\x38\x0b\x62\
        \x22\xba\x96\x47\xa0\x7d\x7b\xe2\x82\x86\x2a\x84\xfb\x17\xfb\x3e\x24\x1f\x02\xa3\x6d\xfc\x23\xf1\
        \xd7\x8c\x16\x28\x1c\x35\x8e\x00",
        24,
        21,
    );
}

// Each type, wasted bits, the widest samples, and two partitions with parameters of 5 bits.
pub fn types(rt: &HostRuntime) {
    run(rt, b"\x00\xfb", 8, 4);
    run(rt, b"\x02\x78\x0f", 4, 4);
    run(rt, b"\x03\x21\xf3\xc0", 8, 3);
    run(rt, b"\x02\x7f\xff\xff\xff\x80\x00\x00\x00", 32, 2);
    run(rt, b"\x14\x01\x02\x44\x04\x71\x30", 8, 6);
}

// 1024 partitions of 4 samples: a warm-up of 4 leaves the first one empty, one of 5 does not fit. 4095 samples cannot
// be split into two partitions.
pub fn partition_boundaries(rt: &HostRuntime) {
    let mut data = [0xc3u8; 1034];
    data[..11].copy_from_slice(b"\x18\x00\x00\x00\x01\x00\x02\x00\x03\x28\x03");
    run(rt, &data, 16, 4096);
    run(
        rt,
        b"\x48\x00\x01\x00\x02\x00\x03\x00\x04\x00\x05\x10\x00\x05\x00",
        16,
        4096,
    );
    run(rt, b"\x10\x04\x00", 16, 4095);
    // escaped partitions: of three bits, and of none
    run(rt, b"\x12\x05\x03\xc7\x58\x00", 8, 3);
    run(rt, b"\x12\x05\x43\xe0\x00\x00", 8, 3);
}

pub fn refusals(rt: &HostRuntime) {
    // cut short, and reserved codes
    run(rt, b"\x02\x78\x00", 12, 3);
    run(rt, b"\x80\x00", 8, 2);
    run(rt, b"\x04\x00", 8, 2);
    run(rt, b"\x10\x80\x00", 8, 2);
    run(rt, b"\x40\x05\xf0\x00\x00\x00", 8, 3);
    // a negative shift
    run(rt, b"\x40\x05\x38\x00\x00\x00", 8, 3);
    // sizes that contradict each other, and a width over 32
    run(rt, b"\x01\x01\x00\x00", 8, 2);
    run(rt, b"\x18\x00\x00\x00\x00\x00\x00\x00\x00", 8, 3);
    run(rt, b"\x14\x05\x06\x08\x00\x00", 8, 4);
    run(rt, b"\x00\x00\x00\x00\x00\x00", 33, 2);
}
