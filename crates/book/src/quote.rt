// The quote, and the fills at it.

// The adjusted bid and offer; either may be missing.
#[derive(Clone, Copy, Default)]
pub struct Quote {
    pub bid: Option<u32>,
    pub offer: Option<u32>,
}
