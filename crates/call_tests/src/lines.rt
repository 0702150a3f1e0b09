//! The lines of a report, also those that no script brings about yet.

use change_sets::{Rule, Said};
use plain_types::{List, Text};
use row_values::Row;
use run_report::{answer_line, branch_line, event_line};
use session_machine::{Answer, Event, EventKind};
use std::alloc::{AllocError, Global};
use std::test::Fail;

const EVENTS: [(Event, &str); 4] = [
    (
        Event {
            session: 0,
            statement: 0,
            kind: EventKind::Plan { version: 3 },
        },
        "event a.1 plan v3",
    ),
    (
        Event {
            session: 0,
            statement: 0,
            kind: EventKind::Validate {
                version: 4,
                verdict: Said::Good,
            },
        },
        "event a.1 validate v4 good",
    ),
    (
        Event {
            session: 0,
            statement: 0,
            kind: EventKind::Swap {
                version: 5,
                won: true,
            },
        },
        "event a.1 swap v5 won",
    ),
    (
        Event {
            session: 0,
            statement: 0,
            kind: EventKind::Swap {
                version: 5,
                won: false,
            },
        },
        "event a.1 swap v5 lost",
    ),
];

const ANSWERS: [(Answer, &str); 5] = [
    (Answer::Committed(6), "answer a.2 committed v6"),
    (Answer::Unchanged, "answer a.2 unchanged"),
    (Answer::RetriesSpent(5), "answer a.2 retries spent 5"),
    (Answer::Cardinality, "answer a.2 cardinality"),
    (Answer::Overflow, "answer a.2 overflow"),
];

fn text(alloc: Global, text: &str) -> Result<Text, AllocError> {
    Text::copy_of(alloc, text)
}

fn two_rows(alloc: Global) -> Result<List<Row>, AllocError> {
    let mut rows = List::new(alloc);
    rows.push(List::new(alloc))?;
    rows.push(List::new(alloc))?;
    Ok(rows)
}

// Whether the second statement of a session has this line for its answer.
fn answers(alloc: Global, answer: Answer, wanted: &str) -> Result<bool, AllocError> {
    let line = answer_line(alloc, "a", 1, &answer)?;
    Ok(line.as_str() == wanted)
}

#[test]
fn events_and_answers_without_names_have_their_lines(rt: HostRuntime) -> Result<(), Fail> {
    let alloc = rt.alloc();
    for (event, wanted) in EVENTS.iter() {
        let line = event_line(alloc, "a", event)?;
        assert!(rt; line.as_str() == *wanted, "{wanted}");
    }
    for (answer, wanted) in ANSWERS.iter() {
        let line = answer_line(alloc, "a", 1, answer)?;
        assert!(rt; line.as_str() == *wanted, "{wanted}");
    }
    Ok(())
}

#[test]
fn names_stand_in_their_lines(rt: HostRuntime) -> Result<(), Fail> {
    let alloc = rt.alloc();
    let null = Answer::Null(text(alloc, "n")?);
    assert!(rt; answers(alloc, null, "answer a.2 null n")?);
    let none = Answer::NoBranch(text(alloc, "b")?);
    assert!(rt; answers(alloc, none, "answer a.2 no branch b")?);
    let exists = Answer::BranchExists(text(alloc, "b")?);
    assert!(rt; answers(alloc, exists, "answer a.2 branch exists b")?);
    let selected = Answer::Selected(two_rows(alloc)?);
    assert!(rt; answers(alloc, selected, "answer a.2 selected 2")?);
    Ok(())
}

#[test]
fn a_conflict_names_its_rule_and_its_file_on_one_line(rt: HostRuntime) -> Result<(), Fail> {
    let alloc = rt.alloc();
    let name = text(alloc, "x\ny\n")?;
    let conflict = Answer::Conflict {
        rule: Rule::V3,
        name,
    };
    assert!(rt; answers(alloc, conflict, "answer a.2 conflict V3 x\\ny\\n")?);
    let name = text(alloc, "x")?;
    let verdict = Said::Conflict {
        rule: Rule::V0,
        name,
    };
    let kind = EventKind::Validate {
        version: 2,
        verdict,
    };
    let event = Event {
        session: 0,
        statement: 9,
        kind,
    };
    let line = event_line(alloc, "b", &event)?;
    assert!(rt; line.as_str() == "event b.10 validate v2 conflict V0 x");
    let line = branch_line(alloc, "main", 12)?;
    assert!(rt; line.as_str() == "branch main 12");
    Ok(())
}
