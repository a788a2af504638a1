// The functions of `number` and `signed` on claxon's test data and at the boundaries of each.
use number::{
    lesser, low32, saturating_sub, shift_down, shift_right, shift_up, wrapping_add, wrapping_sub,
};
use signed::{fold, low_bits, sign_extend, unfold};

fn extend(rt: &HostRuntime, cases: &[(u64, u32)]) {
    for &(v, width) in cases {
        let _ = println!(rt; "sign_extend {v} {width} = {}", sign_extend(v, width));
    }
}

// From the folded form, and back.
fn rice(rt: &HostRuntime, cases: &[u32]) {
    for &n in cases {
        let r = unfold(n);
        let _ = println!(rt; "unfold fold {n} = {r} {}", fold(i64::from(r)));
    }
}

fn low(rt: &HostRuntime, cases: &[(i64, u32)]) {
    for &(x, width) in cases {
        let _ = println!(rt; "low_bits {x} {width} = {}", low_bits(x, width));
    }
}

fn keep(rt: &HostRuntime, cases: &[i64]) {
    for &x in cases {
        let _ = println!(rt; "low32 {x} = {}", low32(x));
    }
}

fn sums(rt: &HostRuntime, cases: &[(i32, i32)]) {
    for &(a, b) in cases {
        let _ = println!(rt;
            "wrapping_add wrapping_sub {a} {b} = {} {}",
            wrapping_add(a, b),
            wrapping_sub(a, b)
        );
    }
}

fn up(rt: &HostRuntime, cases: &[(i32, u32)]) {
    for &(x, k) in cases {
        let _ = println!(rt; "shift_up {x} {k} = {}", shift_up(x, k));
    }
}

fn down(rt: &HostRuntime, cases: &[(i64, u32)]) {
    for &(x, k) in cases {
        let _ = println!(rt; "shift_down {x} {k} = {}", shift_down(x, k));
    }
}

fn less(rt: &HostRuntime, cases: &[(usize, usize)]) {
    for &(a, b) in cases {
        let _ = println!(rt; "lesser {a} {b} = {}", lesser(a, b));
    }
}

fn right(rt: &HostRuntime, cases: &[(u64, u32)]) {
    for &(v, k) in cases {
        let _ = println!(rt; "shift_right {v} {k} = {}", shift_right(v, k));
    }
}

fn minus(rt: &HostRuntime, cases: &[(usize, usize)]) {
    for &(a, b) in cases {
        let _ = println!(rt; "saturating_sub {a} {b} = {}", saturating_sub(a, b));
    }
}

pub fn claxon(rt: &HostRuntime) {
    extend(
        rt,
        &[
            // its verify_extend_sign_u16
            (5, 4),
            (0x3ffe, 15),
            (11, 4),
            (509, 9),
            (0xffff, 16),
            (0xfffe, 16),
            (0x7fff, 15),
            // its verify_extend_sign_u32; the last four are samples of a real stream
            (5, 4),
            (0x3ffffffe, 31),
            (11, 4),
            (509, 9),
            (0xfffe, 16),
            (0xffffffff, 32),
            (0xfffffffe, 32),
            (0x7fffffff, 31),
            (124680, 17),
            (124467, 17),
            (124222, 17),
            (124011, 17),
        ],
    );
    // its verify_rice_to_signed, and the largest numbers
    rice(rt, &[0, 1, 2, 3, 4, 4294967294, 4294967295]);
}

// The least and the largest number of a width, and widths over 64, which count as 64.
pub fn number_boundaries(rt: &HostRuntime) {
    extend(
        rt,
        &[
            (18446744073709551615, 0),
            (0, 1),
            (1, 1),
            (2, 1),
            (1073741823, 31),
            (1073741824, 31),
            (2147483647, 32),
            (2147483648, 32),
            (4294967295, 33),
            (4294967296, 33),
            (4611686018427387903, 63),
            (4611686018427387904, 63),
            (9223372036854775807, 64),
            (9223372036854775808, 64),
            (9223372036854775807, 65),
            (18446744073709551615, 65),
            (18446744073709551615, 4294967295),
        ],
    );
    low(
        rt,
        &[
            (-1, 0),
            (-1, 1),
            (-6, 4),
            (-9223372036854775808, 63),
            (-9223372036854775808, 64),
            (-1, 65),
        ],
    );
}

// The low 32 bits of a number, and of a sum and a difference.
pub fn wraps(rt: &HostRuntime) {
    keep(
        rt,
        &[
            2147483647,
            2147483648,
            4294967295,
            4294967296,
            -2147483648,
            -2147483649,
            9223372036854775807,
            -9223372036854775808,
        ],
    );
    sums(
        rt,
        &[
            (2147483647, 1),
            (-2147483648, -1),
            (-2147483648, -2147483648),
            (2, 3),
            (-2147483648, 1),
            (2147483647, -1),
            (0, -2147483648),
        ],
    );
}

// Shifts by 0, by the number of bits, and by more.
pub fn shifts(rt: &HostRuntime) {
    up(
        rt,
        &[
            (-2147483648, 0),
            (2147483647, 1),
            (1, 31),
            (2, 31),
            (-1, 31),
            (-1, 32),
            (1, 63),
            (1, 64),
            (-1, 4294967295),
        ],
    );
    down(
        rt,
        &[
            (-9223372036854775808, 0),
            (-5, 1),
            (-9223372036854775808, 31),
            (-9223372036854775808, 32),
            (9223372036854775807, 62),
            (9223372036854775807, 63),
            (-9223372036854775808, 63),
            (9223372036854775807, 64),
            (-1, 64),
            (-1, 4294967295),
        ],
    );
}

// The lesser number first, last, and two equal ones.
pub fn lessers(rt: &HostRuntime) {
    less(
        rt,
        &[
            (0, 18446744073709551615),
            (18446744073709551615, 0),
            (5, 5),
            (65534, 65535),
        ],
    );
}

// A shift of an unsigned number by 0, by all but one of its bits, by all of them, and by more.
pub fn right_shifts(rt: &HostRuntime) {
    right(
        rt,
        &[
            (18446744073709551615, 0),
            (18446744073709551615, 63),
            (18446744073709551615, 64),
            (18446744073709551615, 4294967295),
            (6, 1),
        ],
    );
}

// A difference above zero, of zero, and one that stops at zero.
pub fn differences(rt: &HostRuntime) {
    minus(
        rt,
        &[
            (18446744073709551615, 0),
            (5, 4),
            (5, 5),
            (4, 5),
            (0, 18446744073709551615),
        ],
    );
}
