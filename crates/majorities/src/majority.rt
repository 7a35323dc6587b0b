// The key that most windows of a group tell: the Rust's `majority_key_in_range`.
ghost use Rattle.std.specs.Prelude.{◌≡◌, ◌≤◌, length};
ghost use Rattle.timeline.specs.inside.Estimates.{Numbered};
ghost use Rattle.majorities.specs.Majority.{majority_of};
ghost use Rattle.majorities.specs.inside.Tally.{tally_of, most_voted};

// Each key's votes, and the keys in the order in which they are first met.
#[derive(Clone, Copy)]
struct Tally {
    votes: [usize; 24],
    order: [u8; 24],
    met: usize,
}

// Counts the numbers, and notes each where it is first met.
fn count_votes(numbers: &[u8]) -> Tally
    requires { Numbered numbers.now (length numbers.now) }
    ensures { result ≡ tally_of numbers.now }
{
    let mut votes = [0; 24];
    let mut order = [0; 24];
    let mut known = [false; 24];
    let mut met = 0;
    for key in numbers {
        let at = *key as usize;
        votes[at] += 1;
        if !known[at] {
            known[at] = true;
            order[met] = *key;
            met += 1;
        }
    }
    Tally { votes, order, met }
}

// The key with the most votes, the last of equals.
fn most_voted(tally: Tally) -> u8
    requires { (tally.met ≤ 24) × (tally.met ≤ length tally.order) × Numbered tally.order tally.met }
    ensures { result ≡ most_voted tally }
{
    let mut leading = 0;
    let mut most = 0;
    for key in &tally.order[..tally.met] {
        let votes = tally.votes[*key as usize];
        if most <= votes {
            leading = *key;
            most = votes;
        }
    }
    leading
}

// The number that most are, of equal counts the one first met last.
pub fn majority_key(numbers: &[u8]) -> u8
    requires { Numbered numbers.now (length numbers.now) }
    ensures { result ≡ majority_of numbers.now }
{
    let tally = count_votes(numbers);
    most_voted(tally)
}
