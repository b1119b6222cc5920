// Where a slot lies in a multiplexer.
ghost use Rattle.std.specs.Prelude.{◌<◌};

// A number below 4: whoever has a place may read and change its slot. The multiplexer goes beside it, as in the definitions (`slot_at`, `with_slot`).
#[derive(Clone, Copy, PartialEq, Eq, Debug)]
pub struct Place {
    pub index: usize,
    pub ghost below: { index < 4 },
}
