// Whether a run refuses a statement.
ghost use Rattle.std.specs.Prelude.{◌≡◌};
ghost use Rattle.run_report.specs.Report.{has_refusal, is_refusal, is_refused};

use session_machine::{Answer, Stepped};

/// Whether some answer is none of committed, unchanged and selected.
pub fn is_refused(steps: &[Stepped]) -> bool
    ensures { result ≡ is_refused steps.now }
{
    steps.iter().any(has_refusal)
}

fn has_refusal(step: &Stepped) -> bool
    ensures { result ≡ has_refusal step.now }
{
    match &step.answer {
        Some(answer) => is_refusal(answer),
        None => false,
    }
}

fn is_refusal(answer: &Answer) -> bool
    ensures { result ≡ is_refusal answer.now }
{
    match answer {
        Answer::Committed(_) | Answer::Unchanged | Answer::Selected(_) => false,
        _ => true,
    }
}
