// The ceilings of a call, named with the type that they bound.
#![tactic(auto)]

ghost use Rattle.std.specs.Prelude.{◌≡◌};
ghost use Rattle.limits.specs.Limits.{good_text, bounded};

// The limits of a good call: the length of its text in bytes, and its depth setting.
#[derive(Clone, Copy, PartialEq, Eq, Debug)]
pub struct Limits {
    pub text: usize,
    pub depth: u32,
}

impl Limits {
    pub const TEXT: usize = 1 << 20;

    pub const DEPTH: u32 = 200;

    // Whether a text of so many bytes is within its ceiling.
    pub fn takes(text: usize) -> bool
        ensures { result ≡ good_text text }
    {
        text <= Limits::TEXT
    }

    // The limits of a call, where both are within their ceilings.
    pub fn new(text: usize, depth: u32) -> Option<Limits>
        ensures { result ≡ bounded text depth }
    {
        let is_good = Limits::takes(text) && (1..=Limits::DEPTH).contains(&depth);
        is_good.then_some(Limits { text, depth })
    }
}
