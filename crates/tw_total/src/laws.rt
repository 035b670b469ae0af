//! A law of totality, without code.
ghost use Rattle.tw_total.specs.Answers.{AnswersPass};

/// What the checks answer of a group is what `conclude` asks of it. A law: it has no code.
pub fn answers_pass()
    ensures { AnswersPass }
{}
