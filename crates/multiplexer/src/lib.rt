// The wall of paper 01: one screen shared by up to four consoles, each in a pane of its own. This is what a host calls.
// No public function has a `requires`: every input, refused or not, has its equation. No answer names a slot's place.
// A call is judged here and made in `calls`, on the port of the client's slot.
// A screen is a slice of any length here, as in `console`.
#![tactic(auto)]

ghost use Rattle.std.specs.Prelude.{◌≡◌, [], IfOk, OnOk};
ghost use Rattle.rectangle.specs.Rectangles.{OnScreen};
ghost use Rattle.port.specs.Valid.{ValidPort};
ghost use Rattle.reply.specs.Handed.{answer_of, taking_of};
ghost use Rattle.reply.specs.Reply.{Replies};
ghost use Rattle.calls.specs.Taking.{taken_of};
ghost use Rattle.slots.specs.State.{fresh_multiplexer, slot_at, with_port};
ghost use Rattle.slots.specs.Valid.{ValidMultiplexer};
ghost use Rattle.multiplexer.specs.Located.{multiplexer_verdict, claim_verdict, free_slot_for, open_slot, client_slot, claim_slot, located_on, indexed};
ghost use Rattle.multiplexer.specs.Calls.{write_call, return_call, restore_call, take_call, open_call, close_call};

use calls::screen_verdict;
use rectangle::{Rect, legal};
use reply::Status;
use screen::clear;
use slots::lookup::{has_client, pane_shared, slot_of};
use slots::place::Place;
use slots::valid::valid_multiplexer;
use slots::{Multiplexer, free_slot, fresh_slot, port_at, with_port, with_slot};

// What a call hands back.
pub type Answer = reply::Answer<Multiplexer>;

pub type Taking = reply::Taking<Multiplexer>;

// Four free slots.
#[tactic(auto, unfolding(slots::specs::State::free_slot))]
pub fn fresh_multiplexer() -> Multiplexer
    ensures { result ≡ fresh_multiplexer }
{
    Multiplexer {
        slots: [free_slot(); 4],
    }
}

// Refusal 2.
#[tactic(auto, unfolding(crate::specs::Located::multiplexer_verdict))]
fn multiplexer_verdict(m: Multiplexer) -> Result<(), Status>
    ensures verdict { result ≡ multiplexer_verdict m }
    ensures valid { OnOk result (ValidMultiplexer m) }
{
    if valid_multiplexer(m) {
        Ok(())
    } else {
        Err(Status::Invalid)
    }
}

// Refusals 3 and 4, by what a claim asks for.
#[tactic(auto, unfolding(crate::specs::Located::claim_verdict))]
fn claim_verdict(client: u8, pane: Rect) -> Result<(), Status>
    ensures verdict { result ≡ claim_verdict client pane }
    ensures on_screen { OnOk result (OnScreen pane) }
{
    if client == 0 {
        return Err(Status::ClientZero);
    }
    if !legal(pane) {
        return Err(Status::PaneIllegal);
    }
    Ok(())
}

// Refusals 5 to 7, by what is open, and else the lowest free slot.
#[tactic(auto, unfolding(crate::specs::Located::free_slot_for))]
fn free_slot_for(m: Multiplexer, client: u8, pane: Rect) -> Result<Place, Status>
    ensures { indexed result ≡ free_slot_for m client pane }
{
    if has_client(m, client) {
        return Err(Status::ClientTaken);
    }
    if pane_shared(m, pane) {
        return Err(Status::PaneShared);
    }
    slot_of(m, 0).ok_or(Status::Full)
}

// Refusal 8, and else the client's slot.
#[tactic(auto, unfolding(crate::specs::Located::open_slot, slots::specs::State::has_client))]
fn open_slot(m: Multiplexer, client: u8) -> Result<Place, Status>
    ensures { indexed result ≡ open_slot m client }
{
    if !has_client(m, client) {
        return Err(Status::NotOpen);
    }
    slot_of(m, client).ok_or(Status::NotOpen)
}

// Refusal 2, then 8.
#[tactic(auto, unfolding(calls::specs::Verdict::first_of))]
fn client_slot(m: Multiplexer, client: u8) -> Result<Place, Status>
    ensures located { indexed result ≡ client_slot m client }
    ensures valid { IfOk result (λ place. ValidPort (slot_at m place.index).port) }
{
    multiplexer_verdict(m)?;
    open_slot(m, client)
}

// Refusal 2, then 3 to 7.
#[tactic(auto, unfolding(calls::specs::Verdict::first_of))]
fn claim_slot(m: Multiplexer, client: u8, pane: Rect) -> Result<Place, Status>
    ensures located { indexed result ≡ claim_slot m client pane }
    ensures on_screen { OnOk result (OnScreen pane) }
{
    multiplexer_verdict(m)?;
    claim_verdict(client, pane)?;
    free_slot_for(m, client, pane)
}

// Refusal 1 before them.
#[tactic(auto, unfolding(calls::specs::Verdict::first_of))]
fn client_slot_on(length: usize, m: Multiplexer, client: u8) -> Result<Place, Status>
    ensures located { indexed result ≡ located_on length (client_slot m client) }
    ensures valid { IfOk result (λ place. ValidPort (slot_at m place.index).port) }
    ensures fits { OnOk result (length ≡ 1920) }
{
    screen_verdict(length)?;
    client_slot(m, client)
}

// What a call on the port of a slot answered. Each call has its own match: they lend the screen and the block each in another way, so a closure would fit some of them only.
fn relay(m: Multiplexer, place: Place, answer: calls::Answer) -> Answer
    ensures { result ≡ answer_of answer.status (with_port m place.index answer.state) answer.count }
{
    Answer {
        status: answer.status,
        state: with_port(m, place, answer.state),
        count: answer.count,
    }
}

// Obeys a stream on the client's port.
#[tactic(auto, unfolding(crate::specs::Calls::on_slot, calls::specs::Verdict::first_of))]
pub fn write(m: Multiplexer, screen: &mut [u8], client: u8, bytes: &[u8]) -> Answer
    ensures { Replies (write_call m screen.old client bytes.now) result.status result.state result.count screen.new bytes.now }
{
    match client_slot_on(screen.len(), m, client) {
        Err(status) => Answer::refused(status, m),
        Ok(place) => {
            let cells = screen.as_mut_array().unwrap();
            relay(m, place, calls::write(port_at(m, place), cells, bytes))
        }
    }
}

// Hands the text of the client's viewport out.
#[tactic(auto, unfolding(crate::specs::Calls::on_slot, calls::specs::Verdict::first_of))]
pub fn return_block(m: Multiplexer, screen: &[u8], client: u8, block: &mut [u8]) -> Answer
    ensures { Replies (return_call m screen.now client block.old) result.status result.state result.count screen.now block.new }
{
    match client_slot_on(screen.len(), m, client) {
        Err(status) => Answer::refused(status, m),
        Ok(place) => {
            let cells = screen.as_array().unwrap();
            let answer = calls::return_block(port_at(m, place), cells, block);
            relay(m, place, answer)
        }
    }
}

// Puts a block's text into the client's viewport, whose lines are marked.
#[tactic(auto, unfolding(crate::specs::Calls::on_slot, calls::specs::Verdict::first_of))]
pub fn restore_block(m: Multiplexer, screen: &mut [u8], client: u8, block: &[u8]) -> Answer
    ensures { Replies (restore_call m screen.old client block.now) result.status result.state result.count screen.new block.now }
{
    match client_slot_on(screen.len(), m, client) {
        Err(status) => Answer::refused(status, m),
        Ok(place) => {
            let cells = screen.as_mut_array().unwrap();
            let answer = calls::restore_block(port_at(m, place), cells, block);
            relay(m, place, answer)
        }
    }
}

// What a taking on the port of a slot answered: `relay` with one part more, in fewer lines than a trait over both.
fn relay_taking(m: Multiplexer, place: Place, taking: calls::Taking) -> Taking
    ensures { result ≡ taking_of taking.status (with_port m place.index taking.state) taking.marks taking.count }
{
    Taking {
        status: taking.status,
        state: with_port(m, place, taking.state),
        marks: taking.marks,
        count: taking.count,
    }
}

// Hands out the marks of the client's port, and how many lines are marked, and clears them. No screen is lent.
#[tactic(auto, unfolding(crate::specs::Calls::on_slot, calls::specs::Verdict::first_of))]
pub fn take_marks(m: Multiplexer, client: u8) -> Taking
    ensures { Replies (take_call m client) result.status result.state (taken_of result.marks result.count) [] [] }
{
    match client_slot(m, client) {
        Err(status) => Taking::refused(status, m),
        Ok(place) => relay_taking(m, place, calls::take_marks(port_at(m, place))),
    }
}

// Takes the lowest free slot, starts a fresh port there and blanks the pane, whose lines are marked.
#[tactic(auto, unfolding(crate::specs::Calls::on_slot, calls::specs::Verdict::first_of))]
pub fn open(m: Multiplexer, screen: &mut [u8], client: u8, pane: Rect) -> Answer
    ensures { Replies (open_call m screen.old client pane) result.status result.state result.count screen.new [] }
{
    match screen_verdict(screen.len()).and(claim_slot(m, client, pane)) {
        Err(status) => Answer::refused(status, m),
        Ok(place) => {
            clear(screen.as_mut_array().unwrap(), pane, 0xA0);
            Answer::done(with_slot(m, place, fresh_slot(client, pane)), 0)
        }
    }
}

// The slot's every field becomes 0 or false, its marks too; no cell changes.
#[tactic(auto, unfolding(crate::specs::Calls::on_slot, calls::specs::Verdict::first_of))]
pub fn close(m: Multiplexer, client: u8) -> Answer
    ensures { Replies (close_call m client) result.status result.state result.count [] [] }
{
    match client_slot(m, client) {
        Err(status) => Answer::refused(status, m),
        Ok(place) => Answer::done(with_slot(m, place, free_slot()), 0),
    }
}
