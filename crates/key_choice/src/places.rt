// First and second place among the 24 keys.
ghost use Rattle.std.specs.Prelude.{◌≡◌, ◌<◌};
ghost use Rattle.key_choice.specs.Places.{placed, candidate_at, places_of};

use keys::numbers::key_from_index;
use keys::{Key, Mode, Tonic};

// A key with its score.
#[derive(Clone, Copy)]
pub struct Place {
    pub key: Key,
    pub score: f32,
}

#[derive(Clone, Copy)]
pub struct Places {
    pub first: Place,
    pub second: Place,
}

// One key more: a place is taken by a strictly higher score.
fn enter(places: Places, candidate: Place) -> Places
    ensures { result ≡ placed places candidate }
{
    if candidate.score > places.first.score {
        return Places {
            first: candidate,
            second: places.first,
        };
    }
    if candidate.score > places.second.score {
        return Places {
            first: places.first,
            second: candidate,
        };
    }
    places
}

// The key that is tried in a turn: roots upward, major before minor.
fn candidate(scores: &[f32; 24], turn: usize) -> Place
    requires { turn < 24 }
    ensures { result ≡ candidate_at scores.now turn }
{
    let number = 12 * (turn % 2) + turn / 2;
    Place {
        key: key_from_index(number),
        score: scores[number],
    }
}

// First and second place, from C major without a score.
pub fn find_places(scores: &[f32; 24]) -> Places
    ensures { result ≡ places_of scores.now }
{
    let nobody = Place {
        key: Key {
            tonic: Tonic::C,
            mode: Mode::Major,
        },
        score: -1.0 / 0.0,
    };
    let mut places = Places {
        first: nobody,
        second: nobody,
    };
    for turn in 0..24 {
        places = enter(places, candidate(scores, turn));
    }
    places
}
