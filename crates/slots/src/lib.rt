// The slots of a multiplexer: paper 01's wall, without its calls. Each is a client's number and its port, whose home is the client's pane.
#![tactic(auto)]

pub mod lookup;
pub mod place;
pub mod valid;

ghost use Rattle.std.specs.Prelude.{◌≡◌};
ghost use Rattle.rectangle.specs.Rectangles.{OnScreen};
ghost use Rattle.slots.specs.State.{free_slot, fresh_slot, slot_at, with_slot, with_port};

use marks::mark;
use place::Place;
use port::Port;
use port::state::{fresh_port, with_marks, zero_port};
use rectangle::Rect;

// A slot is the paper's seat, and client its bench number. Client 0: the slot is free, and every field is 0 or false.
// The number stays a number, and no Option: paper 01 asks that every field of a free seat holds 0 or false (`free_slot`).
#[derive(Clone, Copy, PartialEq, Eq, Debug)]
pub struct Slot {
    pub client: u8,
    pub port: Port,
}

#[derive(Clone, Copy, PartialEq, Eq, Debug)]
pub struct Multiplexer {
    pub slots: [Slot; 4],
}

#[tactic(auto, unfolding(crate::specs::State::free_slot))]
pub fn free_slot() -> Slot
    ensures { result ≡ free_slot }
{
    Slot {
        client: 0,
        port: zero_port(),
    }
}

// A slot just opened: a fresh port whose home is the pane, all of whose lines are marked.
pub fn fresh_slot(client: u8, pane: Rect) -> Slot
    requires { OnScreen pane }
    ensures { result ≡ fresh_slot client pane }
{
    let marks = mark(0, pane.top, pane.bottom);
    Slot {
        client,
        port: with_marks(fresh_port(pane), marks),
    }
}

// The port of a slot.
pub fn port_at(m: Multiplexer, place: Place) -> Port
    ensures { result ≡ (slot_at m place.index).port }
{
    m.slots[place.index].port
}

// Another slot in a place.
pub fn with_slot(mut m: Multiplexer, place: Place, slot: Slot) -> Multiplexer
    ensures { result ≡ with_slot m place.index slot }
{
    m.slots[place.index] = slot;
    m
}

// Another port in a slot.
pub fn with_port(mut m: Multiplexer, place: Place, port: Port) -> Multiplexer
    ensures { result ≡ with_port m place.index port }
{
    m.slots[place.index].port = port;
    m
}
