// What a job is, its calls with the questions before each, what each call answers, and what whole
// runs of calls promise. There is no code but functions that name theorems: a theorem counts because
// one of these promises it, and its statement stands in specs/. A function may be added; what one
// promises may only be made stronger.
#![tactic(auto)]

ghost use Rattle.runs.specs.Sound.{SoundKept, SoundBasis};
ghost use Rattle.runs.specs.Whole.{AnswersKeepWhole, OneAnswer, RunsWhole};
ghost use Rattle.runs.specs.Writing.{TextsEnter, TextsReadBack, TextsWritten};

// Every run from a new job, over every lawful field and order, is whole: its bases have the ideal of
// the polynomials entered, and its refusals of 18, 24 and 25 are right.
pub fn every_run_is_whole() -> u8
    ensures { RunsWhole }
{
    0
}

// A run that ends in a job, with an answer of that job appended, is whole: what the contract of a
// call promises besides its answer. The answer need be one only if the job is sound.
pub fn an_appended_answer_keeps_a_run_whole() -> u8
    ensures { AnswersKeepWhole }
{
    0
}

// To a sound job, as every run leaves one, each call has an answer, and no other.
pub fn each_call_has_one_answer() -> u8
    ensures { OneAnswer }
{
    0
}

// An accepted Fill does what an Enter for each polynomial of the text does.
pub fn texts_enter_their_polynomials() -> u8
    ensures { TextsEnter }
{
    0
}

// A text that Fill accepts is the basis text of the polynomials that it enters, followed by what is
// left, and Fill answers its length.
pub fn accepted_texts_are_basis_texts() -> u8
    ensures { TextsWritten }
{
    0
}

// Fill, of a new job, accepts the basis text of the polynomials of a sound job and enters them.
pub fn basis_texts_read_back() -> u8
    ensures { TextsReadBack }
{
    0
}

// A new job is sound, and every answer leaves a sound job sound.
pub fn jobs_stay_sound() -> u8
    ensures { SoundKept }
{
    0
}

// The polynomials of a sound job that passed the questions of Close are what algebra asks of a basis.
pub fn sound_jobs_hold_a_basis() -> u8
    ensures { SoundBasis }
{
    0
}
