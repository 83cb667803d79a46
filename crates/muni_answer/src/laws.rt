//! Laws of the answers.

ghost use Rattle.muni_answer.specs.AnswerLaws.{AnswersAreUnique, AnsweredFiguresAreRight, RightFiguresAreOne, AnsweredFiguresAreOne, RightFiguresHaveOutcomes};

/// A law of the definitions: of one issue and one request they allow one answer, and so figures or a
/// refusal but never both. So it does not depend on how many workers compute.
pub fn the_answer_to_a_request_is_unique()
    // promise 4: each request has one right answer
    ensures { AnswersAreUnique }
{}

/// A law of the definitions: figures that are answered are right by the rule's exact formulas,
/// whatever encloser computed them.
pub fn answered_figures_are_right()
    ensures { AnsweredFiguresAreRight }
{}

/// A law of the definitions: figures that are right for one request are the same, whatever encloser
/// computed them. So two firms that answer it by figures print the same. One of them may leave
/// undecided what the other decides. The exact outcomes by which figures are right are always there.
pub fn right_figures_are_one()
    // promise 1, 2: right figures for one request are the same
    ensures one { RightFiguresAreOne }
    // promise 4: two enclosers answer the same, but that one may leave undecided what the other decides
    ensures answered { AnsweredFiguresAreOne }
    // promise 3: there is always one list of the exact outcomes by which they are right
    ensures outcomes { RightFiguresHaveOutcomes }
{}
