ghost use Rattle.std.specs.Prelude.{◌≤◌};

use checking::Chance;

/// The users of the generated jobs, rising.
pub(crate) const USERS: [i64; 3] = [-1, 3, 7];

/// What may stand behind the whole seconds of a time: half a second rounds up.
const TAILS: [&str; 4] = ["", ".5", ".499999", ".25"];

/// A generated job. Where a time or a size is negative, the log doesn't know it.
#[derive(Clone, Copy)]
struct Line {
    number: u64,
    submit: u64,
    /// The seconds that it runs, and the tail behind them.
    run: i64,
    run_tail: &'static str,
    /// The processors that it was given, and those that it asks for.
    given: i64,
    asked: i64,
    /// The seconds that it asks for, and the tail behind them.
    estimate: i64,
    estimate_tail: &'static str,
    user: i64,
}

fn user(chance: &mut Chance) -> i64 {
    USERS[chance.below(3) as usize]
}

fn tail(chance: &mut Chance) -> &'static str {
    TAILS[chance.below(4) as usize]
}

// A job for ten processors. Submit seconds and run times often are multiples of five, so that jobs
// arrive and end at one second; some come after a gap in which all others end. One size in eleven is
// too large, and an estimate of 0 is none; some estimates are below the run time.
fn small_line(chance: &mut Chance, number: u64, base: u64) -> Line {
    let offset = 5 * chance.below(8) + 400 * (chance.below(5) / 4);
    let asked = 1 + chance.below(11);
    let run = 5 * chance.below(7) + chance.below(5) / 4;
    let estimate = 5 * chance.below(9) + chance.below(5) / 4;
    Line {
        number,
        submit: base.wrapping_add(offset),
        run: run as i64,
        run_tail: "",
        given: -1,
        asked: asked as i64,
        estimate: estimate as i64,
        estimate_tail: "",
        user: user(chance),
    }
}

fn size(chance: &mut Chance, procs: u64) -> i64
    requires { procs ≤ 1000 }
{
    let small = (procs / 8).max(1);
    let size = match chance.below(40) {
        0 => procs + 1,
        1..=9 => chance.within(1, procs.max(1)),
        _ => chance.within(1, small),
    };
    size as i64
}

// The seconds that a job asks for: one in six asks for none, and one in sixty for very many.
fn estimate(chance: &mut Chance) -> i64 {
    let estimate = chance.within(1, 90) as i64;
    match chance.below(60) {
        0 => 99_999_999,
        1..=10 => -1,
        _ => estimate,
    }
}

// A job for this machine. Of some the log knows the processors that were given alone, of a few no
// processors or no run time.
fn large_line(chance: &mut Chance, number: u64, submit: u64, procs: u64) -> Line
    requires { procs ≤ 1000 }
{
    let size = size(chance, procs);
    let run = chance.within(0, 60) as i64;
    let (given, asked) = match chance.below(50) {
        0 => (0, -1),
        1..=6 => (size, 0),
        7..=13 => (1, size),
        _ => (-1, size),
    };
    Line {
        number,
        submit,
        run: if chance.below(50) == 0 { -1 } else { run },
        run_tail: tail(chance),
        given,
        asked,
        estimate: estimate(chance),
        estimate_tail: tail(chance),
        user: user(chance),
    }
}

fn add_line(log: &mut String, line: &Line) -> Option<()> {
    let Line {
        number,
        submit,
        run,
        run_tail,
        given,
        asked,
        estimate,
        estimate_tail,
        user,
    } = *line;
    write!(
        log,
        "{number} {submit} -1 {run}{run_tail} {given} -1 -1 {asked} {estimate}{estimate_tail} -1 1 {user} -1 -1 -1 -1 -1 -1\n"
    )
    .ok()
}

// Adds one to twelve jobs for ten processors, whose numbers do not rise, and of which the first may be
// submitted at this second.
pub(crate) fn add_small(log: &mut String, chance: &mut Chance, base: u64) -> Option<()> {
    for place in 0..1 + chance.below(12) {
        let line = small_line(chance, place.wrapping_mul(7) % 13, base);
        add_line(log, &line)?;
    }
    Some(())
}

// Adds 65 to 200 jobs for this machine, of which 65 or more are submitted at one second.
pub(crate) fn add_large(log: &mut String, chance: &mut Chance, procs: u64) -> Option<()> {
    let count = chance.within(65, 200);
    let at_once = chance.within(65, count);
    let second = chance.below(300);
    for place in 0..count {
        let other = chance.below(300);
        let submit = if place < at_once { second } else { other };
        let line = large_line(chance, place.wrapping_mul(7) % 211, submit, procs.min(1000));
        add_line(log, &line)?;
    }
    Some(())
}

// Adds up to forty jobs for ten processors, with numbers below 53. They come at once, or one after
// another.
pub(crate) fn add_edited(log: &mut String, chance: &mut Chance) -> Option<()> {
    let count = chance.within(1, 40);
    let gap = [0, 5, 15, 25][chance.below(4) as usize];
    for place in 0..count {
        let number = place.wrapping_mul(7) % 53;
        let line = small_line(chance, number, place.wrapping_mul(gap));
        add_line(log, &line)?;
    }
    Some(())
}

// Adds the line of a job for ten processors that is submitted at this second.
pub(crate) fn add_at(
    log: &mut String,
    chance: &mut Chance,
    number: u64,
    second: u64,
) -> Option<()> {
    let mut line = small_line(chance, number, 0);
    line.submit = second;
    add_line(log, &line)
}
