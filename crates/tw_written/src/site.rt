//! Sites and spots, and places that are compared.
ghost use Rattle.std.specs.Prelude.{◌≡◌, option_map};
ghost use Rattle.lf_elaboration.specs.Sites.{earlier as earlier_of, is_before as is_before_of};
ghost use Rattle.tw_written.specs.SiteView.{site_of};
ghost use Rattle.tw_written.specs.View.{place_of};

use tw_lexer::Place;

/// A metavariable, or a free variable, by its number at its place. Sites are compared by their places, and at one place by their numbers.
#[derive(Clone, Copy, Debug, PartialEq, Eq, PartialOrd, Ord)]
pub struct Site {
    pub line: u32,
    pub column: u32,
    pub number: u64,
}

/// So many metavariables at a place. A free variable that doesn't occur has none.
#[derive(Clone, Copy, Debug)]
pub struct Spot {
    pub at: Option<Place>,
    pub count: u64,
}

impl Site {
    pub fn new(at: Place, number: u64) -> Site
        ensures { site_of result ≡ record { at = place_of at; of = number } }
    {
        Site {
            line: at.line,
            column: at.column,
            number,
        }
    }

    pub fn place(&self) -> Place
        ensures { place_of result ≡ (site_of self.now).at }
    {
        Place {
            line: self.line,
            column: self.column,
        }
    }
}

/// The earlier one of a place and another, where there is one.
pub fn earlier(at: Place, known: Option<Place>) -> Place
    ensures { place_of result ≡ earlier_of (place_of at) (option_map place_of known) }
{
    match known {
        Some(place) if is_before(place, at) => place,
        Some(_) | None => at,
    }
}

/// Whether the place stands before the other one.
fn is_before(place: Place, other: Place) -> bool
    ensures { result ≡ is_before_of (place_of place) (place_of other) }
{
    place.line < other.line || place.line == other.line && place.column < other.column
}
