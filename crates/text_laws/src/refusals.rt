//! Laws of the refusals of well-known text: reading returns exactly the fault that applies.
ghost use Rattle.text_laws.specs.RefusalLaws.{RefusalIsReturned, SyntaxIsReturned, AnswerIsGiven, TooManyIsTooLong};

/// If W2, W3 or W4 applies, reading returns it.
pub fn refusal_is_returned()
    ensures { RefusalIsReturned }
{}

/// If W1 applies, reading returns it.
pub fn syntax_is_returned()
    ensures { SyntaxIsReturned }
{}

/// The fault that reading returns applies.
pub fn answer_is_given()
    ensures { AnswerIsGiven }
{}

/// A text of the grammar with more positions or parts than the limits allow is refused as W4.
pub fn too_many_is_too_long()
    ensures { TooManyIsTooLong }
{}
