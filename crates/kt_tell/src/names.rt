//! The words of a trace: one table for what nodes do, and one for why a step was refused.
//! Cited by heads.rt, rows_json.rt, words.rt.

ghost use Rattle.std.specs.Prelude.{◌≡◌};
ghost use Rattle.kt_tell.specs.Words.{act_verb, arrival_verb, control_verb, deed, refusal_name};

use kt_history::What;
use kt_model::StepError;
use kt_scenario::Step;
use kt_state::{Message, Mode};

/// Words before the name of a node, and words behind it.
#[derive(Clone, Copy)]
pub(crate) struct Verb {
    pub before: &'static [u8],
    pub behind: &'static [u8],
}

/// What a node did about a request.
pub(crate) fn act_verb(what: &What) -> Verb
    ensures before { result.before.now ≡ (act_verb what.now).0 }
    ensures behind { result.behind.now ≡ (act_verb what.now).1 }
{
    match what {
        What::Issue => Verb {
            before: b" asks ",
            behind: b": ",
        },
        What::Repeat => Verb {
            before: b" asks ",
            behind: b" again: ",
        },
        What::Heard | What::Accepted(_) => Verb {
            before: b" hears ",
            behind: b": ",
        },
        What::Served(_) => Verb {
            before: b" serves ",
            behind: b": ",
        },
        What::Again(_) => Verb {
            before: b" answers ",
            behind: b" again: ",
        },
        What::Ignored(_) => Verb {
            before: b" ignores ",
            behind: b": ",
        },
    }
}

/// What a node that did not hear a request or a reply did with it.
pub(crate) fn arrival_verb(keeps: bool) -> Verb
    ensures before { result.before.now ≡ (arrival_verb keeps).0 }
    ensures behind { result.behind.now ≡ (arrival_verb keeps).1 }
{
    if keeps {
        Verb {
            before: b" keeps back what ",
            behind: b" sent: ",
        }
    } else {
        Verb {
            before: b" drops what ",
            behind: b" sent: ",
        }
    }
}

/// What came to a node by a message that is no request and no reply.
pub(crate) fn control_verb(message: &Message) -> Verb
    ensures before { result.before.now ≡ (control_verb message.now).0 }
    ensures behind { result.behind.now ≡ (control_verb message.now).1 }
{
    match message {
        Message::CheckAsk(_) => Verb {
            before: b" is asked by ",
            behind: b" for a checkpoint",
        },
        Message::RollAsk(_) => Verb {
            before: b" is asked by ",
            behind: b" to roll back",
        },
        Message::Vote(vote) => {
            if vote.yes {
                Verb {
                    before: b" hears that ",
                    behind: b" votes yes",
                }
            } else {
                Verb {
                    before: b" hears that ",
                    behind: b" votes no",
                }
            }
        }
        Message::Verdict { yes, .. } => {
            if *yes {
                Verb {
                    before: b" hears from ",
                    behind: b" that the verdict is yes",
                }
            } else {
                Verb {
                    before: b" hears from ",
                    behind: b" that the verdict is no",
                }
            }
        }
        Message::App(_) => Verb {
            before: b" hears ",
            behind: b"",
        },
    }
}

/// What a node did of itself that is no event of a request.
pub(crate) fn deed(step: Step) -> &'static [u8]
    ensures { result.now ≡ deed step }
{
    match step {
        Step::Issue { .. } => b" asks",
        Step::Repeat { .. } => b" asks again",
        Step::Deliver { .. } => b" hears nothing",
        Step::Take { .. } => b" takes nothing",
        Step::Serve { .. } => b" serves",
        Step::Check { .. } => b" begins a check",
        Step::Decide { .. } => b" decides",
        Step::Abandon { .. } => b" gives up",
        Step::Learn { .. } => b" learns the verdict",
        Step::Fail { .. } => b" fails",
        Step::Restart { .. } => b" restarts",
    }
}

/// The name of the refusal, as it is printed where a step fails.
pub(crate) fn refusal_name(cause: StepError) -> &'static str
    ensures { result.now ≡ refusal_name cause }
{
    match cause {
        StepError::NoNode => "NoNode",
        StepError::WrongMode => "WrongMode",
        StepError::NothingThere => "NothingThere",
        StepError::NoSuchMatch => "NoSuchMatch",
        StepError::NotDecided => "NotDecided",
        StepError::Unresolved => "Unresolved",
        StepError::StepLimit => "StepLimit",
        StepError::Store(_) => "Store",
        StepError::OutOfMemory => "OutOfMemory",
    }
}
