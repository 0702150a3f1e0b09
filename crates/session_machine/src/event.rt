use crate::answer::Answer;
use change_sets::Said;
use std::fmt;

/// What a statement does at a step.
#[derive(Debug, PartialEq, Drop)]
pub enum EventKind {
    /// It plans its change on this version.
    Plan { version: u32 },
    /// Its change is validated against this version.
    Validate { version: u32, verdict: Said },
    /// It swaps this version in, or loses to another one.
    Swap { version: u32, won: bool },
}

impl fmt::Display for EventKind {
    ghost use Rattle.std.specs.Prelude.{Some};
    ghost use Rattle.session_machine.specs.Events.{kind_text};

    ghost output = { λ kind. Some (kind_text kind) };

    fn fmt<W: fmt::Write>(&self, f: &mut fmt::Formatter<W>) -> fmt::Result {
        match self {
            EventKind::Plan { version } => write!(f, "plan v{version}"),
            EventKind::Validate { version, verdict } => {
                write!(f, "validate v{version} {verdict}")
            }
            EventKind::Swap { version, won: true } => write!(f, "swap v{version} won"),
            EventKind::Swap {
                version,
                won: false,
            } => write!(f, "swap v{version} lost"),
        }
    }
}

/// An event of a statement, which counts from 0 in its session, as the session among its run.
#[derive(Debug, PartialEq, Drop)]
pub struct Event {
    pub session: usize,
    pub statement: usize,
    pub kind: EventKind,
}

/// What a step of a session brings: an event, and the answer of the statement that ends with it.
#[derive(Debug, PartialEq, Drop)]
pub struct Stepped {
    pub event: Option<Event>,
    pub answer: Option<Answer>,
}
