//! What is asked of whoever may write beside a window.

/// What a call asks that lends words beside a window, or leaves the window at other bits: `BitsMut::with_words` and
/// `BitsShown::show`.
///
/// It is for the crates that windows and containers are made of. `bit_slice` and the layers above do not show it, so
/// whoever lists these alone has no value of it, and makes neither call.
#[derive(Clone, Copy)]
pub struct MayWriteBeside;
