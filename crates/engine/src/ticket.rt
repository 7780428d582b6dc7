// The ticket of an attempt.
ghost use Rattle.std.specs.Prelude.{◌≡◌};

// What an opening hands out, and what only a close takes: a number, 1 for each ticket that is out. It may be let go only with 0,
// which no ticket has outside this module.
pub struct Ticket {
    number: u8,
}

impl Ticket {
    pub(crate) fn new() -> Ticket
        ensures { result.number ≡ 1 }
    {
        Ticket { number: 1 }
    }

    // Sets the number to 0, so that the ticket can be let go.
    pub(crate) fn take(mut self) {
        self.number = 0;
    }
}

impl Drop for Ticket {
    fn drop(self)
        requires { self.number ≡ 0 }
    {
        let Self { number: _ } = self;
    }
}
