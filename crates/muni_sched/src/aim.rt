//! What the searches of a round ask if they know the answer to their own question. Nothing rests on it.

use crate::search::OpenSearch;
use crate::{Candidate, Shape};
use muni_dec::Price;
use muni_terms::Flows;
use muni_yield::{Place, Question, RoughYield, Window, place_near};

/// A question, and the guess that it comes from: the highest place that a candidate reaches.
#[derive(Clone, Copy, Debug, PartialEq, Eq)]
pub(crate) struct Aim {
    question: Question,
    candidate: usize,
    guess: Place,
}

impl Aim {
    /// Before any guess.
    pub(crate) const START: Aim = Aim {
        question: Question::FIRST,
        candidate: 0,
        guess: Place::BELOW,
    };

    /// Next to a guess at the yield of the candidate of many payments whose rough yield is the lowest.
    pub(crate) fn first(list: &[Candidate], price: Price) -> Aim {
        match first_roughly(list, price) {
            Some((candidate, flows)) => {
                let rough = RoughYield::of(flows, price);
                let guess = place_near(flows, price, rough.millionths());
                Aim::at(candidate, &Window::first(flows, price), guess, None)
            }
            None => Aim::START,
        }
    }

    /// After a round, next to the guess at hand if its candidate is still searched, and else to a
    /// new one.
    pub(crate) fn next(&self, searches: &[OpenSearch], is_asked: bool) -> Aim {
        let asked = if is_asked { Some(self.question) } else { None };
        if let Some(search) = self.own(searches) {
            return Aim::beside(search, self.guess_of(search), asked);
        }
        match lowest_roughly(searches) {
            Some(search) => Aim::beside(search, self.guess_of(search), asked),
            None => *self,
        }
    }

    // The search that the guess is of, while more than one of its verdicts is open.
    fn own<'a>(&self, searches: &'a [OpenSearch]) -> Option<&'a OpenSearch> {
        for search in searches {
            if search.candidate == self.candidate && search.guided.window().is_wide() {
                return Some(search);
            }
        }
        None
    }

    /// What is asked.
    pub(crate) fn question(&self) -> Question {
        self.question
    }

    // The guess at hand, if it is of this search and what is known allows it.
    fn guess_of(&self, search: &OpenSearch) -> Place {
        let window = search.guided.window();
        if self.candidate == search.candidate
            && !self.guess.is_below(window.yes())
            && self.guess.is_below(window.no())
        {
            self.guess
        } else {
            search.guided.guess(i64::from(self.question.boundary()))
        }
    }

    fn beside(search: &OpenSearch, guess: Place, asked: Option<Question>) -> Aim {
        Aim::at(search.candidate, search.guided.window(), guess, asked)
    }

    // At the place after a guess, or at the guess itself if that one is known or the guess is the least yield. A
    // question that was asked and is too near to tell is passed by.
    fn at(candidate: usize, window: &Window, guess: Place, asked: Option<Question>) -> Aim {
        let guess = guess.higher(window.yes()).lower(window.no().before());
        let place = match asked {
            Some(asked) if window.is_open_at(asked) => place_beside(asked.place(), window),
            _ if Question::near(guess) == Question::FIRST => guess,
            _ if !guess.next().is_below(window.no()) => guess,
            _ => guess.next(),
        };
        Aim {
            question: Question::near(place),
            candidate,
            guess,
        }
    }
}

// The place before one, if that is open, and else the next one.
fn place_beside(place: Place, window: &Window) -> Place {
    if window.yes().is_below(place.before()) {
        place.before()
    } else {
        place.next()
    }
}

// Of those with many payments to come, the candidate whose rough yield is the lowest.
fn first_roughly(list: &[Candidate], price: Price) -> Option<(usize, &Flows)> {
    let mut lowest = None;
    let mut least = RoughYield::HIGHEST;
    for (candidate, redemption) in list.iter().enumerate() {
        if let Shape::Many(flows) = &redemption.shape {
            let rough = RoughYield::of(flows, price);
            if rough.is_below(least) {
                lowest = Some((candidate, flows));
                least = rough;
            }
        }
    }
    lowest
}

// Of those with more than one verdict open, the search whose rough yield is the lowest.
fn lowest_roughly(searches: &[OpenSearch]) -> Option<&OpenSearch> {
    let mut lowest = None;
    let mut least = RoughYield::HIGHEST;
    for search in searches {
        if search.guided.window().is_wide() {
            let rough = search.guided.rough_yield();
            if rough.is_below(least) {
                lowest = Some(search);
                least = rough;
            }
        }
    }
    lowest
}
