// Shows one read from outside, with all of its buffer. Standard input, numbers little-endian:
//     room (4), fill (4)                     how many samples are lent, and what each of them holds
//     block given (1), block (4)             0: the size of the stream's blocks is unknown; 1: it is this one
//     stream given, bits, rate (1, 1, 4)     0: the stream has no record; 1: its record has these bits and this rate
//     strict (1)                             for W-210 of document 02: passed over
//     wide room (4), wide fill (8)           for W-209: the fill is passed over
//     the frame's bytes                      at most 65,536; more is left unread
// Bytes that are missing before the frame count as zeros. Written:
//     number (1), consumed (4), first sample number known (1), first sample number (8), channels (1), bits (1), block
//     size (2)                               the answer
//     eight parts (8 each)                   for W-213: zeros
//     samples (4 each)                       all that were lent
//     wide room places (8 each)              for W-209: zeros
// If a room is above 65,536, or the flag `block given` or `stream given` is neither 0 nor 1, the only byte written is 11.
#![tactic(auto)]

ghost use Rattle.std.specs.Prelude.{◌≡◌, ◌≤◌, length};

use error::Refusal;
use frame::Accepted;
use probe_records::{answer_bytes, number_from_bytes, sample_bytes, sample_from_bytes};
use rfc9639::{Settings, StreamRecord};

// The numbers of standard input and standard output.
const STDIN: i32 = 0;

const STDOUT: i32 = 1;

fn write_answer(answer: Result<Accepted, Refusal>) {
    let bytes = match answer {
        Ok(f) => answer_bytes(
            0,
            f.consumed as u64,
            f.first,
            f.channels as u64,
            f.bits as u64,
            f.size as u64,
        ),
        Err(e) => answer_bytes(e.into(), 0, None, 0, 0, 0),
    };
    io::write_all(STDOUT, &bytes);
}

// The first bytes, at once. That the array is lent as a slice spares the check its half a million elements.
fn write_first(bytes: &[u8], n: usize)
    requires { (length bytes.now ≡ 524288) × (n ≤ 524288) }
{
    io::write_all(STDOUT, &bytes[..n]);
}

// Places of eight bytes: one write for each would be slow.
fn write_zeros(places: usize)
    requires { places ≤ 65536 }
{
    let zeros = [0; 524288];
    write_first(&zeros, 8 * places);
}

fn write_samples(samples: &[i32])
    requires { length samples.now ≤ 65536 }
{
    let mut out = [0; 262144];
    for (place, sample) in out.chunks_exact_mut(4).zip(samples) {
        place.copy_from_slice(&sample_bytes(*sample));
    }
    io::write_all(STDOUT, &out[..4 * samples.len()]);
}

// Fills the samples, reads once, and writes the answer and the samples.
fn probe(bytes: &[u8], set: Settings, fill: i32, samples: &mut [i32])
    requires { length samples.old ≤ 65536 }
{
    samples.fill(fill);
    write_answer(frame::read_frame(bytes, set, samples));
    write_zeros(8);
    write_samples(samples);
}

// The number in the four bytes from a place on.
fn number_at(input: &[u8; 65568], at: usize) -> u32
    requires { at ≤ 65564 }
{
    number_from_bytes(input[at], input[at + 1], input[at + 2], input[at + 3]) as u32
}

// The input is fixed memory, with how many of its bytes were read: the program has no heap.
fn run(input: &[u8; 65568], n: usize, samples: &mut [i32; 65536])
    requires { n ≤ 65568 }
{
    let room = number_at(input, 0) as usize;
    let fill = sample_from_bytes(input[4], input[5], input[6], input[7]);
    let wide = number_at(input, 20) as usize;
    if 65536 < room || 65536 < wide || 1 < input[8] || 1 < input[13] {
        io::write_all(STDOUT, &[11]);
        return;
    }
    let size = number_at(input, 9) as usize;
    let record = StreamRecord {
        bits: input[14] as u32,
        rate: number_at(input, 15),
    };
    let set = Settings {
        block: (input[8] == 1).then_some(size),
        stream: (input[13] == 1).then_some(record),
    };
    // The frame's bytes start after the 32 bytes of the settings and rooms.
    probe(&input[32..n.max(32)], set, fill, &mut samples[..room]);
    write_zeros(wide);
}

fn main() {
    let mut input = [0; 65568];
    let mut samples = [0; 65536];
    let n = io::read_full(STDIN, &mut input);
    run(&input, n, &mut samples);
}
