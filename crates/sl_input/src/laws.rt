// A law of losses. The function does nothing: its contract is the law, and the proof is in proofs/.
ghost use Rattle.sl_input.specs.Answers.{AnswerInOrder};

/// The loss of a link answers for its puts one after the other, and each answer is what the input loses.
pub fn losses_answer_in_order()
    ensures { AnswerInOrder }
{}
