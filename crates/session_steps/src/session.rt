//! A session at work.

use branch_commit::Pending;
use commit_builder::Prepared;
use session_machine::{Answer, Event, EventKind, Phase, Place, Stepped};
use table_names::Names;

/// No session draws so many names: a step draws fewer than 2^101, and a session has fewer than 2^24 steps.
pub(crate) const NAMES_END: u128 = 1 << 126;

/// A session between two steps.
#[derive(Drop)]
pub struct Session {
    pub place: Place,
    /// The names of the files that it puts next.
    pub names: Names,
    /// What its plan left, until the statement is answered.
    pub pending: Option<Pending>,
    /// The version that it prepared, until it is swapped in.
    pub prepared: Option<Prepared>,
}

impl Session {
    ghost use Rattle.std.specs.Prelude.{◌≡◌, ◌<◌, ◌^◌, None, Some};
    ghost use Rattle.session_machine.specs.Machine.{after_statement, event_at};

    /// A session before its first statement.
    pub fn new(number: usize, names: Names) -> Session
        ensures place { result.place ≡ record { session = number; at = 0; phase = Phase.Plan; planned = 0; seen = 0; lost = 0 } }
        ensures names { result.names ≡ names }
        ensures pending { result.pending ≡ None }
        ensures prepared { result.prepared ≡ None }
    {
        Session {
            place: first_place(number, 0),
            names,
            pending: None,
            prepared: None,
        }
    }

    // Answers the statement at hand.
    pub(crate) fn answer(&mut self, kind: EventKind, answer: Answer) -> Stepped
        requires { self.old.place.at < 2 ^ 63 }
        ensures stepped { result ≡ record { event = Some (event_at self.old.place kind); answer = Some answer } }
        ensures place { self.new.place ≡ after_statement self.old.place }
        ensures names { self.new.names ≡ self.old.names }
        ensures pending { self.new.pending ≡ None }
        ensures prepared { self.new.prepared ≡ None }
    {
        let event = event_at(&self.place, kind);
        self.place = first_place(self.place.session, self.place.at + 1);
        self.pending = None;
        self.prepared = None;
        Stepped {
            event: Some(event),
            answer: Some(answer),
        }
    }

    // Goes on to this place.
    pub(crate) fn go_on(&mut self, kind: EventKind, place: Place) -> Stepped
        ensures stepped { result ≡ record { event = Some (event_at self.old.place kind); answer = None } }
        ensures place { self.new.place ≡ place }
        ensures names { self.new.names ≡ self.old.names }
        ensures pending { self.new.pending ≡ self.old.pending }
        ensures prepared { self.new.prepared ≡ self.old.prepared }
    {
        let event = event_at(&self.place, kind);
        self.place = place;
        Stepped {
            event: Some(event),
            answer: None,
        }
    }
}

ghost use Rattle.std.specs.Prelude.{◌≡◌};
ghost use Rattle.session_machine.specs.Machine.{event_at};

// The place before a statement.
fn first_place(session: usize, at: usize) -> Place
    ensures { result ≡ record { session = session; at = at; phase = Phase.Plan; planned = 0; seen = 0; lost = 0 } }
{
    Place {
        session,
        at,
        phase: Phase::Plan,
        planned: 0,
        seen: 0,
        lost: 0,
    }
}

fn event_at(place: &Place, kind: EventKind) -> Event
    ensures { result ≡ event_at place.now kind }
{
    Event {
        session: place.session,
        statement: place.at,
        kind,
    }
}
