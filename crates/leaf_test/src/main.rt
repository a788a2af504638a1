// The leaves of the reader on claxon's own test data, at the boundaries of each function, and at each refusal. Each
// case has a line: the functions, the arguments, `=` and the answers, a refusal by its number. The file `stdout` holds
// what claxon asserts, what was published, or what was worked out apart from this program. If standard output does not
// take a line, the run goes on, and ends as any other.
#![tactic(auto)]

mod bit_by_bit;
mod blocks;
mod crcs;
mod inputs;
mod numbers;
mod runs;
mod show;
mod subframes;

fn main(rt: HostRuntime) {
    crcs::sums(&rt);
    crcs::lengths(&rt);
    inputs::inputs(&rt);
    inputs::words(&rt);
    runs::runs(&rt);
    runs::seeded(&rt);
    numbers::claxon(&rt);
    numbers::number_boundaries(&rt);
    numbers::wraps(&rt);
    numbers::shifts(&rt);
    numbers::lessers(&rt);
    numbers::right_shifts(&rt);
    numbers::differences(&rt);
    blocks::blocks(&rt);
    subframes::predictors(&rt);
    subframes::types(&rt);
    subframes::partition_boundaries(&rt);
    subframes::refusals(&rt);
}
