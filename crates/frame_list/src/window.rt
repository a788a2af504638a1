// The window on the card: bytes that are still needed move to its front, and more of the card is read in after them. It
// is fixed memory, lent with how many of its bytes are held: the program has no heap.
ghost use Rattle.std.specs.Prelude.{◌+◌, ◌-◌, ◌≤◌, ◌<◌, ◌≡◌, IfOk, length, take, drop};
ghost use Rattle.std.specs.Io.{ReadsAtMost};
ghost use Rattle.frame_list.specs.Window.{Fills};

use crate::Source;
use std::io;
use std::io::Read;

// What follows the bytes that the window holds: perhaps more; the end of the card; or a failed read, with the system's
// error number.
#[derive(Clone, Copy, Debug, PartialEq, Eq)]
pub enum Rest {
    More,
    Ended,
    Failed(i32),
}

// How many bytes the window holds, and what follows them.
#[derive(Clone, Copy, Debug, PartialEq, Eq)]
pub struct Filled {
    pub held: usize,
    pub rest: Rest,
}

// How often one fill tries again after an interrupted read.
const TRIES: u32 = 1000000;

// Moves the bytes from `used` to `held` to the front.
pub fn shift(window: &mut [u8], used: usize, held: usize)
    requires { (used ≤ held) × (held ≤ length window.old) }
    ensures { take (held - used) window.new ≡ take (held - used) (drop used window.old) }
{
    window.copy_within(used..held, 0);
}

// The system's error number, or 0 if the error has none.
pub fn number_in(error: io::Error) -> i32 {
    error.raw_os_error().unwrap_or(0)
}

// One read of the system's.
fn read_some(source: &Source, buffer: &mut [u8]) -> io::Result<usize>
    ensures { ReadsAtMost result buffer.new }
{
    match source {
        Source::Input(input) => {
            let mut input = input;
            input.read(buffer)
        }
        Source::Named(file) => {
            let mut file = file;
            file.read(buffer)
        }
    }
}

// One read, into the window after the bytes it holds. Those stay as they are.
fn read_once(source: &Source, window: &mut [u8], held: usize) -> io::Result<usize>
    requires { held < length window.old }
    ensures kept { take held window.new ≡ take held window.old }
    ensures fits { IfOk result (λ n. held + n ≤ length window.old) }
{
    read_some(source, &mut window[held..])
}

// Reads on after the bytes that are held, which stay as they are, until `wanted` bytes are held or there are no more.
pub fn fill_to(source: &Source, window: &mut [u8], before: usize, wanted: usize) -> Filled
    requires { (before ≤ length window.old) × (wanted ≤ length window.old) }
    ensures { Fills window.old before wanted result window.new }
{
    let mut held = before;
    let mut tries = TRIES;
    while held < wanted {
        match read_once(source, window, held) {
            Ok(0) => {
                return Filled {
                    held,
                    rest: Rest::Ended,
                };
            }
            Ok(n) => held += n,
            Err(e) if e.kind() == io::ErrorKind::Interrupted && tries > 0 => tries -= 1,
            Err(e) => {
                return Filled {
                    held,
                    rest: Rest::Failed(number_in(e)),
                };
            }
        }
    }
    Filled {
        held,
        rest: Rest::More,
    }
}

// How many bytes to want when `left` bytes were too few: twice as many, but no more than there is room for. A long
// frame that arrives in small pieces is then read again only a few times.
pub fn next_wanted(left: usize, room: usize) -> usize
    requires { left < room }
    ensures { (left < result) × (result ≤ room) }
{
    left.saturating_mul(2).clamp(1, room)
}
