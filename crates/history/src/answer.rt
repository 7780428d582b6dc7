// What the calls of an engine answer where they are not refused.
ghost use Rattle.std.specs.Prelude.{◌≡◌};
ghost use Rattle.history.specs.Numbers.{step_number, alarm_number};

use crate::outcome::Outcome;

// The answer to a step.
#[derive(Clone, Copy, PartialEq, Eq, Debug)]
pub enum StepAnswer {
    // A device was lowered.
    Lowered = 1,
    // A device was raised.
    Raised = 2,
    // The next device has a hindrance: nothing was lowered, and the attempt turned round.
    Hindered = 3,
    // An alarm is kept: nothing was tried, and the attempt turned round.
    Alarmed = 4,
}

// The answer to an alarm.
#[derive(Clone, Copy, PartialEq, Eq, Debug)]
pub enum AlarmAnswer {
    // It alters nothing.
    Ignored = 0,
    // It is kept.
    Kept = 1,
}

// The answer to any call.
#[derive(Clone, Copy, PartialEq, Eq, Debug)]
pub enum Answer {
    Opened,
    Stepped { answer: StepAnswer },
    Heard { answer: AlarmAnswer },
    Closed { outcome: Outcome },
    Written,
    Seen { level: u8, word: u32, hindrance: u8 },
}

impl StepAnswer {
    // 1 to 4.
    pub fn number(self) -> u8
        ensures { result ≡ step_number self }
    {
        self as u8
    }
}

impl AlarmAnswer {
    // 0 or 1.
    pub fn number(self) -> u8
        ensures { result ≡ alarm_number self }
    {
        self as u8
    }
}
