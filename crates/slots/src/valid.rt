// When a multiplexer is valid. The tests of its slots and of two slots are joined without branches, as the definitions are.
ghost use Rattle.std.specs.Prelude.{◌≡◌};
ghost use Rattle.slots.specs.Valid as rules;

use super::{Multiplexer, Slot};
use port::valid::{is_zero_port, valid_port};
use rectangle::shares_cell;

#[tactic(auto, unfolding(crate::specs::Valid::valid_slot))]
fn valid_slot(x: Slot) -> bool
    ensures { result ≡ rules.valid_slot x }
{
    if x.client == 0 {
        return is_zero_port(x.port);
    }
    valid_port(x.port)
}

// Two slots, where both are open, have different clients and panes that share no cell.
#[tactic(auto, unfolding(crate::specs::Valid::compatible))]
fn compatible(x: Slot, y: Slot) -> bool
    ensures { result ≡ rules.compatible x y }
{
    let p = x.port;
    let q = y.port;
    ((x.client == 0) | (y.client == 0)) | ((x.client != y.client) & !shares_cell(p.home, q.home))
}

// The paper's 'sound'.
// The four slots and their six pairs stand by hand, as in the definition: by nested `all` over the slots behind each one the proof did not close.
#[tactic(auto, unfolding(crate::specs::Valid::valid_multiplexer, crate::specs::Valid::valid_slots))]
pub fn valid_multiplexer(m: Multiplexer) -> bool
    ensures { result ≡ rules.valid_multiplexer m }
{
    let [a, b, c, d] = m.slots;
    ((valid_slot(a) & valid_slot(b)) & (valid_slot(c) & valid_slot(d)))
        & ((compatible(a, b) & (compatible(a, c) & compatible(a, d)))
            & ((compatible(b, c) & compatible(b, d)) & compatible(c, d)))
}
