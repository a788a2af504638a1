// Reads frame after frame from up to 32 KiB of standard input into a buffer of 8,192 samples, and writes
// little-endian records. 01: consumed (4), first sample number (8), channels (1), bits (1), block size (2). 02, for
// each sample in the buffer's order: the sample (4). 03: the number of the refusal (1), which ends the run. All frames
// are read as of a stream whose blocks have the size in the first frame's header.
#![tactic(auto)]

ghost use Rattle.std.specs.Prelude.{◌≤◌, ◌<◌, IfSome, length};

use frame::Accepted;
use probe_records::{answer_bytes, sample_bytes};
use rfc9639::Settings;

// The numbers of standard input and standard output.
const STDIN: i32 = 0;

const STDOUT: i32 = 1;

// The record is that of the probe programs without the byte that says whether the first sample's number is known. Here
// it always is: the first frame has a header, so its size is the stream's.
fn write_report(f: Accepted) {
    let bytes = answer_bytes(
        1,
        f.consumed as u64,
        f.first,
        f.channels as u64,
        f.bits as u64,
        f.size as u64,
    );
    io::write_all(STDOUT, &bytes[..5]);
    io::write_all(STDOUT, &bytes[6..]);
}

// Writes the samples at once: one write per sample would be slow.
fn write_samples(samples: &[i32])
    requires { length samples.now ≤ 8192 }
{
    let mut out = [2; 40960];
    for (record, sample) in out.chunks_exact_mut(5).zip(samples) {
        record[1..].copy_from_slice(&sample_bytes(*sample));
    }
    io::write_all(STDOUT, &out[..5 * samples.len()]);
}

// Writes what was read at a place, and returns the place after a frame; after a refusal there is none.
fn step(bytes: &[u8], place: usize, set: Settings, samples: &mut [i32]) -> Option<usize>
    requires { (place ≤ length bytes.now) × (length samples.old ≤ 8192) }
    ensures { IfSome result (λ next. (place < next) × (next ≤ length bytes.now)) }
{
    let read = walk::read_next(bytes, place, set, samples);
    match read.answer {
        Ok(f) => {
            write_report(f);
            write_samples(&samples[..f.channels * f.size]);
            Some(read.place)
        }
        Err(e) => {
            io::write_all(STDOUT, &[3, e.into()]);
            None
        }
    }
}

// Reads frame after frame, all with the settings that the first one gives, until one is refused.
fn run(bytes: &[u8], samples: &mut [i32; 8192]) {
    let set = walk::stream_settings(bytes);
    let mut place = 0;
    while let Some(next) = step(bytes, place, set, samples) {
        place = next;
    }
}

fn main() {
    let mut bytes = [0; 32768];
    let mut samples = [0; 8192];
    let n = io::read_full(STDIN, &mut bytes);
    run(&bytes[..n], &mut samples);
}
