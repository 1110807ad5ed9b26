// What a call on the state gives back.
ghost use Rattle.std.specs.Prelude.{◌≡◌};
ghost use Rattle.model.specs.Refused.{refusal_number};
ghost use Rattle.model.specs.declared.answer.Answer.TheVariants.{Refused, Nothing, Done};
ghost use Rattle.state.specs.Reply.{replied};

use model::answer::{Answer, Refusal, Reply};
use model::state::State;

// Refused: the state stays as it was.
pub fn refused(s: State, no: Refusal) -> Reply
    ensures { result ≡ replied (Refused (refusal_number no)) s }
{
    Reply {
        answer: Answer::from(no),
        state: s,
    }
}

// There was nothing to do: the state stays as it was.
pub fn nothing(s: State) -> Reply
    ensures { result ≡ replied Nothing s }
{
    Reply {
        answer: Answer::Nothing,
        state: s,
    }
}

// Done, with the next state.
pub fn done(s: State) -> Reply
    ensures { result ≡ replied Done s }
{
    Reply {
        answer: Answer::Done,
        state: s,
    }
}
