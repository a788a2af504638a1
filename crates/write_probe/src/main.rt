// Shows one write from outside, with all of its output. Standard input, little-endian: channel code (1), bits (1),
// blocking (1), the frame's or sample's number (8), block size (4), the output's room (4), a fill byte (1), then the
// samples (4 each, at most 16,384). Missing bytes before the samples count as zeros, and an incomplete last sample is
// left out. The output is filled, then written into once. Written: the answer's number (1), the length (4), then the
// whole output. A room above 32,768 is answered by 11, a length of 0, and no bytes.
#![tactic(auto)]

ghost use Rattle.std.specs.Prelude.{◌≡◌, ◌*◌, ◌≤◌, length};

use probe_records::{four_bytes, number_from_bytes, sample_from_bytes};

// The numbers of standard input and standard output.
const STDIN: i32 = 0;

const STDOUT: i32 = 1;

fn write_head(number: u8, length: u64) {
    let [a, b, c, d] = four_bytes(length);
    io::write_all(STDOUT, &[number, a, b, c, d]);
}

fn decode(bytes: &[u8], samples: &mut [i32])
    requires { 4 * length samples.old ≤ length bytes.now }
{
    for (sample, b) in samples.iter_mut().zip(bytes.chunks_exact(4)) {
        *sample = sample_from_bytes(b[0], b[1], b[2], b[3]);
    }
}

// The input is fixed memory, with how many of its bytes were read: the program has no heap.
fn run(input: &[u8; 65556], n: usize, samples: &mut [i32; 16384], out: &mut [u8; 32768])
    requires { n ≤ 65556 }
{
    let number = u64::from_le_bytes([
        input[3], input[4], input[5], input[6], input[7], input[8], input[9], input[10],
    ]);
    let size = number_from_bytes(input[11], input[12], input[13], input[14]) as usize;
    let room = number_from_bytes(input[15], input[16], input[17], input[18]) as usize;
    if out.len() < room {
        write_head(11, 0);
        return;
    }
    let out = &mut out[..room];
    out.fill(input[19]);
    // The samples that are there whole.
    let samples = &mut samples[..n.saturating_sub(20) / 4];
    decode(&input[20..], samples);
    let answer = frame_writer::write_frame(
        samples,
        input[0] as u32,
        input[1] as u32,
        input[2] as u32,
        number,
        size,
        out,
    );
    match answer {
        Ok(length) => write_head(0, length as u64),
        Err(e) => write_head(e.into(), 0),
    }
    io::write_all(STDOUT, out);
}

fn main() {
    let mut input = [0; 65556];
    let mut samples = [0; 16384];
    let mut out = [0; 32768];
    let n = io::read_full(STDIN, &mut input);
    run(&input, n, &mut samples, &mut out);
}
