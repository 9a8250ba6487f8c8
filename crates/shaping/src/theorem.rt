// What is proved of every answer of the program. There is no code but a function that names the
// theorem: its statement stands in specs/Answer.antt.
ghost use Rattle.shaping.specs.Answer.{OneAnswer};

// To each text there is one answer: the basis or the line of the first question that gets a no.
pub fn each_text_has_one_answer() -> u8
    ensures { OneAnswer }
{
    0
}
