// An input field whose sizes were accepted: what its keys obey. Its clauses name no definition of `specs`, so that those can name it.
ghost use Rattle.std.specs.Prelude.{◌≤◌, length};

// A maximum of at most 254, and a default that is no longer. `field` builds it where no refusal applies, and what is said of it here holds for each key.
#[derive(Clone, Copy)]
pub struct Field<'a> {
    pub width: usize,
    pub maximum: usize,
    pub default: &'a [u8],
    pub ghost maximum_high: { maximum ≤ 254 },
    pub ghost default_fits: { length default.now ≤ maximum },
}
