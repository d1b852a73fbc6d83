//! What the two loops agree on.
ghost use Rattle.std.specs.Prelude.{◌≡◌, ◌<◌};

use hk_words::Shape;

/// The messages that are sent.
pub const MESSAGES: u64 = 200;

/// The places of the ring: the reference fields of the board.
pub const PLACES: u64 = 4;

/// A message: one number.
pub const MESSAGE: Shape = Shape { refs: 0, nums: 1 };

/// The register of the board.
pub const BOARD: u8 = 0;

/// The register of a message in hand.
pub const HELD: u8 = 1;

/// A register that is never written, and so is null.
pub const NOTHING: u8 = 2;

/// The place of the message after so many others.
pub fn place_of(count: u64) -> u8
    ensures { result < 4 }
{
    (count % PLACES) as u8
}
