use hk_words::Draws;

/// The draws of a seat. Those of two seats begin far apart.
pub fn draws_of_seat(seat: u8) -> Draws {
    Draws {
        state: u64::from(seat).wrapping_mul(0x9E37_79B9_7F4A_7C15),
    }
}
