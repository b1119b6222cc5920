// Which slot a client has, and whether a pane is taken.
ghost use Rattle.std.specs.Prelude.{◌≡◌};
ghost use Rattle.slots.specs.State.{slot_of, has_client};
ghost use Rattle.slots.specs.Panes.{shares_pane, pane_shared};
ghost use Rattle.slots.specs.Places.{number_of};

use super::place::Place;
use super::{Multiplexer, Slot};
use rectangle::{Rect, shares_cell};

// The place of a client's slot; that of 0 is the lowest free slot.
#[tactic(auto, unfolding(crate::specs::State::slot_of))]
pub fn slot_of(m: Multiplexer, client: u8) -> Option<Place>
    ensures { number_of result ≡ slot_of m client }
{
    let index = m.slots.iter().position(|slot| slot.client == client)?;
    Some(Place { index })
}

// Some open slot has this client; 0 never has one.
#[tactic(auto, unfolding(crate::specs::State::has_client, crate::specs::State::slot_of))]
pub fn has_client(m: Multiplexer, client: u8) -> bool
    ensures { result ≡ has_client m client }
{
    (client != 0) & slot_of(m, client).is_some()
}

fn shares_pane(pane: Rect, slot: Slot) -> bool
    ensures { result ≡ shares_pane pane slot }
{
    slot.client != 0 && shares_cell(slot.port.home, pane)
}

// A pane shares a cell with an open one.
#[tactic(auto, unfolding(crate::specs::Panes::pane_shared))]
pub fn pane_shared(m: Multiplexer, pane: Rect) -> bool
    ensures { result ≡ pane_shared m pane }
{
    m.slots.iter().any(|slot| shares_pane(pane, *slot))
}
