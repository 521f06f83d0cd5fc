//! Which kinds of questions are answered.

ghost use Rattle.std.specs.Prelude.{◌≡◌, true, false};

/// Which kinds of questions are answered, besides `ask` rows. A row of another kind is refused like a
/// row of an unknown kind.
#[derive(Clone, Copy, Debug, PartialEq, Eq)]
pub struct QuestionKinds {
    /// Whether `except` rows are answered.
    pub except: bool,
    /// Whether `pair` rows are answered.
    pub pair: bool,
}

/// A type that says which kinds of questions are answered, so that contracts can say it, too.
pub trait Kinds {
    ghost use Rattle.cspf_questions.specs.declared.kinds.QuestionKinds.{QuestionKinds};

    /// The kinds.
    ghost kinds: { QuestionKinds };

    /// The kinds.
    fn value() -> QuestionKinds
        ensures { result ≡ kinds };
}

/// No questions are answered besides `ask` rows.
pub struct AnswersNone;

impl Kinds for AnswersNone {
    ghost kinds = { record { except = false; pair = false } };

    fn value() -> QuestionKinds {
        QuestionKinds {
            except: false,
            pair: false,
        }
    }
}

/// `except` rows are answered.
pub struct AnswersExcept;

impl Kinds for AnswersExcept {
    ghost kinds = { record { except = true; pair = false } };

    fn value() -> QuestionKinds {
        QuestionKinds {
            except: true,
            pair: false,
        }
    }
}

/// `pair` rows are answered.
pub struct AnswersPairs;

impl Kinds for AnswersPairs {
    ghost kinds = { record { except = false; pair = true } };

    fn value() -> QuestionKinds {
        QuestionKinds {
            except: false,
            pair: true,
        }
    }
}

/// `except` rows and `pair` rows are answered.
pub struct AnswersBoth;

impl Kinds for AnswersBoth {
    ghost kinds = { record { except = true; pair = true } };

    fn value() -> QuestionKinds {
        QuestionKinds {
            except: true,
            pair: true,
        }
    }
}
