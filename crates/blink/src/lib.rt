// A program that promises nothing but to keep the rule of tickets. An edit that lets its ticket go makes nothing else false, so it
// shows that the rule is kept: without what the `drop` of a ticket asks for, such an edit would be proved.
#![tactic(auto)]

ghost use Rattle.std.specs.Prelude.{◌≡◌, true};
ghost use Rattle.engine.specs.Tickets.{is_open};

use bank::bank::Bank;
use engine::engine::Engine;
use engine::ticket::Ticket;

// Closes the attempt that is open.
fn close<B: Bank>(engine: &mut Engine<B>, ticket: Ticket)
    requires { is_open engine.old.standing ≡ true }
{
    match engine.close(ticket) {
        Ok(_) => (),
        Err(_) => unreachable!(),
    }
}

// Opens an attempt and closes it at once, unless one is open.
pub fn blink<B: Bank>(engine: &mut Engine<B>) {
    if let Ok(ticket) = engine.open() {
        close(engine, ticket);
    }
}
