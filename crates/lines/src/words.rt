// The words that stand in lines for callbacks, phases and kinds of outcomes.
ghost use Rattle.std.specs.Prelude.{◌≡◌, ◌≤◌, length};
ghost use Rattle.lines.specs.Words.{callback, kind_word, phase_name, phase_word};

use history::entry::Direction;
use history::outcome::Outcome;
use history::phase::Phase;

// The callback of an entry. That of a raising is the counterpart of the one that it undoes.
pub(crate) fn callback(direction: Direction, phase: Phase) -> &'static [u8]
    ensures text { result.now ≡ callback direction phase }
    ensures most { length result.now ≤ 13 }
{
    match (direction, phase) {
        (Direction::Down, Phase::Prepare) => b"prepare",
        (Direction::Down, Phase::Suspend) => b"suspend",
        (Direction::Down, Phase::Late) => b"suspend_late",
        (Direction::Down, Phase::Noirq) => b"suspend_noirq",
        (Direction::Up, Phase::Prepare) => b"complete",
        (Direction::Up, Phase::Suspend) => b"resume",
        (Direction::Up, Phase::Late) => b"resume_early",
        (Direction::Up, Phase::Noirq) => b"resume_noirq",
    }
}

// How an attempt ended.
pub(crate) fn kind(outcome: Outcome) -> &'static [u8]
    ensures { result.now ≡ kind_word outcome }
{
    match outcome {
        Outcome::Slept { .. } => b"slept",
        Outcome::Fault { .. } => b"fault",
        Outcome::Alarm { .. } => b"alarm",
        Outcome::Cancelled { .. } => b"cancel",
    }
}

fn name(phase: Phase) -> &'static [u8]
    ensures text { result.now ≡ phase_name phase }
    ensures most { length result.now ≤ 7 }
{
    match phase {
        Phase::Prepare => b"prepare",
        Phase::Suspend => b"suspend",
        Phase::Late => b"late",
        Phase::Noirq => b"noirq",
    }
}

// The phase in which it ended.
pub(crate) fn phase(outcome: Outcome) -> &'static [u8]
    ensures text { result.now ≡ phase_word outcome }
    ensures most { length result.now ≤ 7 }
{
    match outcome {
        Outcome::Slept { .. } => b"-",
        Outcome::Fault { phase, .. }
        | Outcome::Alarm { phase, .. }
        | Outcome::Cancelled { phase, .. } => name(phase),
    }
}
